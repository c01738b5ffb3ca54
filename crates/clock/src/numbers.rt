// From addresses to numbers: the frame number of an address, and the distance from one address to another.
ghost use Rattle.std.specs.Prelude.{◌≡◌};
ghost use Rattle.clock.specs.Calls.{number_of, span_of};

use crate::counting::count;
use crate::types::DayFrame;
use rates::{Address, Flag, Rate, frames_in_day, is_yes, judge, judge_two};
use refusals::Refusal;

pub fn number_of(rate: Rate, drop: Flag, address: Address) -> Result<DayFrame, Refusal>
    ensures { result ≡ number_of rate drop address }
{
    judge(rate, drop, address, false, false)?;
    Ok(count(rate, is_yes(drop), address))
}

pub fn distance(rate: Rate, drop: Flag, from: Address, to: Address) -> Result<i32, Refusal>
    ensures { result ≡ span_of rate drop from to }
{
    judge_two(rate, drop, from, to, false, false)?;
    let dropped = is_yes(drop);
    let last = frames_in_day(rate, dropped) - 1;
    let start = count(rate, dropped, from);
    let end = count(rate, dropped, to);
    let frames = round::distance(last, start.0, end.0) as i32;
    Ok(frames)
}
