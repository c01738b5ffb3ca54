// The second byte that names a mode.
ghost use Rattle.std.specs.Prelude.{◌≡◌, ◌+◌};
ghost use Rattle.superframes.specs.Named.{name_of, misnamed};

use pictures::Counting;
use rates::Rate;

// 32 times 0, 1 or 2 for super-frames of 24, 25 or 30, and the pictures of a super-frame.
fn name_of(counting: Counting) -> u32
    ensures { result ≡ name_of counting.rate (counting.last + 1) }
{
    let pictures = counting.last as u32 + 1;
    match counting.rate {
        Rate::At24 => pictures,
        Rate::At25 => 32 + pictures,
        Rate::At30 => 64 + pictures,
    }
}

// Whether the second byte is another than the one that names the mode; modes 0 to 5 ask for none.
pub fn is_misnamed(mode: u8, second: u8) -> bool
    ensures { result ≡ misnamed mode second }
{
    let Ok(counting) = modes::high_row_of(mode) else {
        return false;
    };
    second as u32 != name_of(counting)
}
