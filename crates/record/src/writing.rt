// From a record to 64 information bits.
ghost use Rattle.std.specs.Prelude.{◌≡◌, Ok};
ghost use Rattle.refusals.specs.Answer.{verdict_of};
ghost use Rattle.record.specs.Record.{info_of, group_above_15};
ghost use Rattle.record.specs.Fits.{QuarterOf};
ghost use Rattle.record.specs.Calls.{write_refusals, packed_of};

use crate::judging::judge;
use crate::types::{Groups, Record};
use layout::{bit, by_25};
use rates::{Flag, Rate};
use refusals::Refusal;

fn has_high_group(g: Groups) -> bool
    ensures { result ≡ group_above_15 g }
{
    15 < g.group1
        || 15 < g.group2
        || 15 < g.group3
        || 15 < g.group4
        || 15 < g.group5
        || 15 < g.group6
        || 15 < g.group7
        || 15 < g.group8
}

// Sixteen bits: units, a group, tens and two flags, a group.
fn quarter(number: u8, low: u8, first: Flag, second: Flag, high: u8) -> u64
    ensures { QuarterOf number low first second high result }
{
    let digits = number as u64;
    let flags = 4 * bit(first) + 8 * bit(second);
    digits % 10 + (16 * low as u64 + (256 * (digits / 10 + flags) + 4096 * high as u64))
}

// The four quarters of a record, with the flags whose places the rate decides.
fn packed(rate: Rate, r: Record) -> u64
    requires { verdict_of (write_refusals rate r) ≡ Ok tt }
    ensures { result ≡ info_of rate r }
{
    let Record {
        address,
        flags,
        groups,
        ..
    } = r;
    let at27 = by_25(rate, flags.bgf0, flags.mark);
    let at43 = by_25(rate, flags.bgf2, flags.bgf0);
    let at59 = by_25(rate, flags.mark, flags.bgf2);
    let first = quarter(
        address.frames.0,
        groups.group1,
        flags.drop,
        flags.colour,
        groups.group2,
    );
    let second = quarter(
        address.seconds,
        groups.group3,
        Flag::No,
        at27,
        groups.group4,
    );
    let third = quarter(
        address.minutes,
        groups.group5,
        Flag::No,
        at43,
        groups.group6,
    );
    let fourth = quarter(
        address.hours,
        groups.group7,
        flags.bgf1,
        at59,
        groups.group8,
    );
    first + 0x1_0000 * (second + 0x1_0000 * (third + 0x1_0000 * fourth))
}

pub fn to_bits(rate: Rate, r: Record) -> Result<u64, Refusal>
    ensures { result ≡ packed_of rate r }
{
    judge(rate, has_high_group(r.groups), 0 < r.place, r)?;
    Ok(packed(rate, r))
}
