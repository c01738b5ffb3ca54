// Whether 64 bits or a record can stand, once their fields are known.
ghost use Rattle.std.specs.Prelude.{◌≡◌};
ghost use Rattle.refusals.specs.Answer.{verdict_of};
ghost use Rattle.record.specs.Calls.{record_refusals};

use crate::types::Record;
use layout::is_unused_colour;
use rates::Rate;
use refusals::Refusal;

// `bad` where a digit or a group is out of its range, and `unused` where a place is not used: neither is a concern of the clock's.
pub fn judge(rate: Rate, bad: bool, unused: bool, r: Record) -> Result<(), Refusal>
    ensures { result ≡ verdict_of (record_refusals rate bad unused r) }
{
    let set = unused | is_unused_colour(rate, r.flags.colour);
    rates::judge(rate, r.flags.drop, r.address, bad, set)
}
