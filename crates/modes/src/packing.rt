// The calls of the record, by mode.
ghost use Rattle.std.specs.Prelude.{◌≡◌, ◌+◌};
ghost use Rattle.record.specs.Record.{at_place};
ghost use Rattle.modes.specs.Calls.{unpacked_in, packed_in};
ghost use Rattle.modes.specs.AtRate.{place_left};

use crate::table::{last_place, rate_of};
use record::Record;
use refusals::Refusal;

pub fn from_bits(mode: u8, info: u64) -> Result<Record, Refusal>
    ensures { result ≡ unpacked_in mode info }
{
    record::from_bits(rate_of(mode)?, info)
}

// A record with its place said anew.
pub fn at_place(place: u8, r: Record) -> Record
    ensures { result ≡ at_place place r }
{
    Record { place, ..r }
}

// The place that is left for the rate to judge: where several pictures share an address, none.
fn place_left(last: u8, place: u8) -> u8
    ensures { result ≡ place_left (last + 1) place }
{
    if last == 0 {
        return place;
    }
    0
}

pub fn to_bits(mode: u8, r: Record) -> Result<u64, Refusal>
    ensures { result ≡ packed_in mode r }
{
    let rate = rate_of(mode)?;
    let last = last_place(mode);
    if pictures::is_place_outside(last, r.place) {
        return Err(Refusal::OutsideTheClock);
    }
    let place = place_left(last, r.place);
    record::to_bits(rate, at_place(place, r))
}
