// From a record to 64 information bits.
ghost use Rattle.std.specs.Prelude.{◌≡◌, ◌+◌};
ghost use Rattle.superframes.specs.SubFrames.{flagged};
ghost use Rattle.superframes.specs.Bare.{bare};
ghost use Rattle.superframes.specs.Calls.{packed_of, packed_in};

use crate::bits::{has_flag_besides_drop, three_for};
use layout::{bit, flag};
use pictures::Counting;
use rates::Flag;
use record::{Flags, Record};
use refusals::Refusal;

// The record with its place spread over its flags, but for drop and sub-frame 2.
fn bare_flagged(three: u64, r: Record) -> Record
    ensures { result ≡ bare (flagged three r) }
{
    let flags = Flags {
        drop: Flag::No,
        colour: Flag::No,
        mark: flag(three / 4 % 2),
        bgf0: flag(three % 2),
        bgf1: Flag::No,
        bgf2: Flag::No,
    };
    Record {
        flags,
        place: 0,
        ..r
    }
}

// `record` gives 8 alone of what it is told; the place, 9 and 10 are judged after it, and drop and sub-frame 2 put in: bits 10 and 11.
fn packed(counting: Counting, r: Record) -> Result<u64, Refusal>
    ensures { result ≡ packed_of counting.rate (counting.last + 1) r }
{
    let Counting { rate, last } = counting;
    let three = three_for(last, r.place);
    let info = record::to_bits(rate, bare_flagged(three, r))?;
    let outside = pictures::is_place_outside(last, r.place);
    let flags = r.flags;
    rates::judge(
        rate,
        flags.drop,
        r.address,
        outside,
        has_flag_besides_drop(flags),
    )?;
    let second = flag(three / 2 % 2);
    Ok(info + 0x400 * (bit(flags.drop) + 2 * bit(second)))
}

pub fn to_bits(mode: u8, r: Record) -> Result<u64, Refusal>
    ensures { result ≡ packed_in mode r }
{
    let counting = modes::high_row_of(mode)?;
    packed(counting, r)
}
