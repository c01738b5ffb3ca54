// From 64 information bits to a record.
ghost use Rattle.std.specs.Prelude.{◌≡◌, ◌+◌};
ghost use Rattle.superframes.specs.SubFrames.{placed_at};
ghost use Rattle.superframes.specs.Bare.{judged_of};
ghost use Rattle.superframes.specs.Calls.{unpacked_of, unpacked_in};

use crate::bits::{has_other_set, place_said};
use layout::flag;
use pictures::Counting;
use rates::Flag;
use record::{Flags, Record};
use refusals::Refusal;

// A record's address and groups, with drop as its only flag and a place.
fn placed_at(place: u8, drop: Flag, r: Record) -> Record
    ensures { result ≡ placed_at place drop r }
{
    let flags = Flags {
        drop,
        colour: Flag::No,
        mark: Flag::No,
        bgf0: Flag::No,
        bgf1: Flag::No,
        bgf2: Flag::No,
    };
    Record { flags, place, ..r }
}

// What is left to judge of bits whose digits and address are inside the clock: the place, drop and the sub-frame bits that are not used.
fn judged(counting: Counting, drop: Flag, second: Flag, r: Record) -> Result<Record, Refusal>
    ensures { result ≡ judged_of counting.rate (counting.last + 1) drop second r }
{
    let Counting { rate, last } = counting;
    let flags = r.flags;
    let place = place_said(last, flags.mark, second, flags.bgf0);
    let outside = pictures::is_place_outside(last, place);
    rates::judge(rate, drop, r.address, outside, has_other_set(last, flags))?;
    Ok(placed_at(place, drop, r))
}

// At 24 frames `record` turns a set colour bit away, which is sub-frame 2 here: so bits 10 and 11 are kept from it, and judged after it.
fn unpacked(counting: Counting, info: u64) -> Result<Record, Refusal>
    ensures { result ≡ unpacked_of counting.rate (counting.last + 1) info }
{
    let rest = info - 0x400 * (info / 0x400 % 4);
    let held = record::from_bits(counting.rate, rest)?;
    let drop = flag(info / 0x400 % 2);
    let second = flag(info / 0x800 % 2);
    judged(counting, drop, second, held)
}

pub fn from_bits(mode: u8, info: u64) -> Result<Record, Refusal>
    ensures { result ≡ unpacked_in mode info }
{
    let counting = modes::high_row_of(mode)?;
    unpacked(counting, info)
}
