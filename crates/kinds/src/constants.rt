// The kinds' constants together: no definition names a constant of the code, so these promises are what holds each of them.
ghost use Rattle.std.specs.Prelude.{◌≡◌};
ghost use Rattle.kinds.specs.Constants.{kind_constants, pair_constants, high_constants};

use crate::counting::CountingMode;
use crate::frames::{Frames24, Frames25, Frames30, Frames30Drop};
use crate::high::{Frames72, Frames96, Frames100, Frames120As24x5, Frames120As30x4, Frames120Drop};
use crate::pairs::{Frames48, Frames50, Frames60, Frames60Drop};

// The constants of 24, 25, 30 and 30 drop, frames in a second and then in a day.
pub fn kind_constants() -> [u32; 8]
    ensures { result ≡ kind_constants }
{
    [
        Frames24::IN_SECOND,
        Frames24::IN_DAY,
        Frames25::IN_SECOND,
        Frames25::IN_DAY,
        Frames30::IN_SECOND,
        Frames30::IN_DAY,
        Frames30Drop::IN_SECOND,
        Frames30Drop::IN_DAY,
    ]
}

// The constants of 48, 50, 60 and 59.94 drop, pictures in a second and then in a day.
pub fn pair_constants() -> [u32; 8]
    ensures { result ≡ pair_constants }
{
    [
        Frames48::IN_SECOND,
        Frames48::IN_DAY,
        Frames50::IN_SECOND,
        Frames50::IN_DAY,
        Frames60::IN_SECOND,
        Frames60::IN_DAY,
        Frames60Drop::IN_SECOND,
        Frames60Drop::IN_DAY,
    ]
}

// The constants of 72, 96, 100, 120 as 24x5, 120 as 30x4 and 120 drop, pictures in a second and then in a day.
pub fn high_constants() -> [u32; 12]
    ensures { result ≡ high_constants }
{
    [
        Frames72::IN_SECOND,
        Frames72::IN_DAY,
        Frames96::IN_SECOND,
        Frames96::IN_DAY,
        Frames100::IN_SECOND,
        Frames100::IN_DAY,
        Frames120As24x5::IN_SECOND,
        Frames120As24x5::IN_DAY,
        Frames120As30x4::IN_SECOND,
        Frames120As30x4::IN_DAY,
        Frames120Drop::IN_SECOND,
        Frames120Drop::IN_DAY,
    ]
}
