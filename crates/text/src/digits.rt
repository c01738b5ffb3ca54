// Numbers as text.
ghost use Rattle.std.specs.Prelude.{◌≡◌};
ghost use Rattle.text.specs.Gathered.{place_after, out_after};
ghost use Rattle.text.specs.Numerals.{decimal, hex_digit};

use crate::laying::append;

pub fn append_decimal(number: u64, text: &mut [u8], at: usize) -> usize
    ensures { (result ≡ place_after (decimal number) at text.old) × (text.new ≡ out_after (decimal number) at text.old) }
{
    let mut room = [0u8; 20];
    let count = io::decimal(number, &mut room);
    append(&room[..count], text, at)
}

// By hand, since the digits of `io` and of the library are lower-case.
#[tactic(auto, unfolding(crate::specs::Numerals::hex_digit))]
pub fn hex_digit(number: u8) -> u8
    ensures { result ≡ hex_digit number }
{
    let low = number % 16;
    if low < 10 {
        return b'0' + low;
    }
    b'A' + (low - 10)
}
