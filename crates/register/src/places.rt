// The 80 places of a register, and which of them are held.
ghost use Rattle.std.specs.Prelude.{◌≡◌};
ghost use Rattle.register.specs.Held.{fresh_of, register, unreached};
ghost use Rattle.register.specs.Blank.{blank};

use crate::types::{Reader, Ways};

impl Reader {
    pub fn fresh(mode: u8, ways: Ways) -> Self
        ensures { result ≡ fresh_of mode ways }
    {
        Reader {
            mode,
            ways,
            held: 0,
            info: 0,
            sync: 0,
        }
    }
}

// How many places at the bottom of the register are zero before the first one.
fn blank_places(reader: Reader) -> u32
    ensures { result ≡ blank (register reader) }
{
    let low = u64::trailing_zeros(reader.info);
    if low < 64 {
        return low;
    }
    64 + u16::trailing_zeros(reader.sync)
}

pub fn is_unreached(reader: Reader) -> bool
    ensures { result ≡ unreached reader }
{
    let held = reader.held as u32;
    if 80 < held {
        return true;
    }
    blank_places(reader) < 80 - held
}
