// What a rate fixes: the frames in a second and in a day, and whether drop-frame may be asked for.
ghost use Rattle.std.specs.Prelude.{◌≡◌};
ghost use Rattle.rates.specs.Rates.{is_yes, by_rate, frames_in_second, frames_in_day, may_drop};

use crate::types::{Flag, Rate};

pub fn is_yes(flag: Flag) -> bool
    ensures { result ≡ is_yes flag }
{
    matches!(flag, Flag::Yes)
}

// The one of three that belongs to the rate.
pub fn by_rate<T: Drop>(rate: Rate, at24: T, at25: T, at30: T) -> T
    ensures { result ≡ by_rate rate at24 at25 at30 }
{
    match rate {
        Rate::At24 => at24,
        Rate::At25 => at25,
        Rate::At30 => at30,
    }
}

pub fn frames_in_second(rate: Rate) -> u32
    ensures { result ≡ frames_in_second rate }
{
    by_rate(rate, 24, 25, 30)
}

pub fn frames_in_day(rate: Rate, drop: bool) -> u32
    ensures { result ≡ frames_in_day rate drop }
{
    if drop {
        return by_rate(rate, 2_073_600, 2_160_000, 2_589_408);
    }
    by_rate(rate, 2_073_600, 2_160_000, 2_592_000)
}

pub fn may_drop(rate: Rate) -> bool
    ensures { result ≡ may_drop rate }
{
    matches!(rate, Rate::At30)
}
