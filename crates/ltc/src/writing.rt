// From a record into the middle of a lent run.
ghost use Rattle.std.specs.Prelude.{◌+◌, ◌^◌, ◌<◌, ◌≡◌, length};
ghost use Rattle.layout.specs.Flags.{places};
ghost use Rattle.polarity.specs.Word.{word_with, made};
ghost use Rattle.ltc.specs.Calls.{written_of, run_of};

use modes::Shows;
use polarity::{Found, has_odd_zeros};
use rates::Rate;
use record::Record;
use refusals::Refusal;

// The 80 elements of a word.
fn store(info: u64, word: &mut [u8])
    requires { length word.old ≡ 80 }
    ensures { word.new ≡ word_with info }
{
    runs::scatter(info, &mut word[0..64]);
    runs::scatter(0xbffc, &mut word[64..80]);
}

// "Writing is told which to make": the information bits that are written, told from those with the polarity bit 0.
fn made(rate: Rate, make: Found, clear: u64) -> u64
    requires { clear + 2 ^ (places rate).mark < 2 ^ 64 }
    ensures { result ≡ made make clear (clear + 2 ^ (places rate).mark) }
{
    let set = clear + layout::mark_value(rate);
    match make {
        Found::Uncorrected => clear,
        Found::Corrected => {
            if has_odd_zeros(clear) {
                return set;
            }
            clear
        }
    }
}

pub fn write(mode: u8, r: Record, make: Found, start: usize, run: &mut [u8]) -> Result<(), Refusal>
    ensures { (result ≡ written_of mode r start run.old) × (run.new ≡ run_of mode r make start run.old) }
{
    let rate = modes::rate_of(mode)?;
    let clear = modes::picture_to_bits(mode, Shows::First, r)?;
    // 11 as well: a second picture was refused by it above, and a mark is here
    if rates::is_yes(r.flags.mark) {
        return Err(Refusal::MarkSet);
    }
    if runs::lacks_room(80, start, run.len()) {
        return Err(Refusal::NoRoom);
    }
    let info = made(rate, make, clear);
    let end = start + 80;
    store(info, &mut run[start..end]);
    Ok(())
}
