// Which addresses a rate and a drop flag turn away: the one judge, for whatever makes 8, 9 or 10 apply.
ghost use Rattle.std.specs.Prelude.{◌≡◌};
ghost use Rattle.refusals.specs.Answer.{verdict_of};
ghost use Rattle.rates.specs.Rates.{frames_in_second};
ghost use Rattle.rates.specs.Face.{outside, skipped};
ghost use Rattle.rates.specs.Refused.{address_refusals, refusals_besides, refusals_of_two_besides};

use crate::table::{frames_in_second, is_yes, may_drop};
use crate::types::{Address, Flag, Rate};
use refusals::Refusal;

fn is_outside(rate: Rate, a: Address) -> bool
    ensures { result ≡ outside (frames_in_second rate) a }
{
    let fps = frames_in_second(rate);
    let frames = a.frames.0 as u32;
    23 < a.hours || 59 < a.minutes || 59 < a.seconds || fps <= frames
}

fn is_skipped(a: Address) -> bool
    ensures { result ≡ skipped a }
{
    let frames = a.frames.0;
    frames < 2 && a.seconds == 0 && a.minutes % 10 != 0
}

// What an address, or two at one rate, are turned away with: `out` where 8 applies, `skip` where drop-frame skips, `unused` where a bit besides drop, or a place, is set
// that is not used.
fn verdict(rate: Rate, drop: bool, out: bool, skip: bool, unused: bool) -> Result<(), Refusal>
    ensures { result ≡ verdict_of (address_refusals rate drop out skip unused) }
{
    let drops = may_drop(rate);
    let nine = drops & (drop & skip);
    let ten = unused | (drop & !drops);
    if out {
        return Err(Refusal::OutsideTheClock);
    }
    if nine {
        return Err(Refusal::SkippedAddress);
    }
    if ten {
        return Err(Refusal::UnusedBitSet);
    }
    Ok(())
}

// `bad` and `unused` are no concern of the address's: what else makes 8 apply, and 10.
pub fn judge(rate: Rate, drop: Flag, a: Address, bad: bool, unused: bool) -> Result<(), Refusal>
    ensures { result ≡ verdict_of (refusals_besides bad unused rate drop a) }
{
    let out = bad | is_outside(rate, a);
    verdict(rate, is_yes(drop), out, is_skipped(a), unused)
}

pub fn judge_two(
    rate: Rate,
    drop: Flag,
    a: Address,
    b: Address,
    bad: bool,
    unused: bool,
) -> Result<(), Refusal>
    ensures { result ≡ verdict_of (refusals_of_two_besides bad unused rate drop a b) }
{
    let out = bad | (is_outside(rate, a) | is_outside(rate, b));
    let skip = is_skipped(a) | is_skipped(b);
    verdict(rate, is_yes(drop), out, skip, unused)
}
