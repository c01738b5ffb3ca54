// Which picture of an address a word, a line or a packet shows.
ghost use Rattle.std.specs.Prelude.{◌≡◌};
ghost use Rattle.modes.specs.Shown.{place_shown, shown_in, unshown, carried_in};

use crate::packing::{at_place, from_bits, to_bits};
use crate::table::last_place;
use crate::types::Shows;
use rates::{Flag, is_yes};
use record::Record;
use refusals::Refusal;

fn place_shown(mode: u8, shows: Shows, mark: Flag) -> u8
    ensures { result ≡ place_shown mode shows mark }
{
    match shows {
        Shows::First => 0,
        Shows::ByMark => {
            if last_place(mode) == 0 {
                return 0;
            }
            if is_yes(mark) {
                return 1;
            }
            0
        }
    }
}

pub fn picture_from_bits(mode: u8, shows: Shows, info: u64) -> Result<Record, Refusal>
    ensures { result ≡ shown_in mode shows info }
{
    let held = from_bits(mode, info)?;
    Ok(at_place(place_shown(mode, shows, held.flags.mark), held))
}

fn is_unshown(mode: u8, shows: Shows, r: Record) -> bool
    ensures { result ≡ unshown mode shows r }
{
    r.place != place_shown(mode, shows, r.flags.mark)
}

pub fn picture_to_bits(mode: u8, shows: Shows, r: Record) -> Result<u64, Refusal>
    ensures { result ≡ carried_in mode shows r }
{
    let info = to_bits(mode, r)?;
    if is_unshown(mode, shows, r) {
        return Err(Refusal::MarkSet);
    }
    Ok(info)
}
