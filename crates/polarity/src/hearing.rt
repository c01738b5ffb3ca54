// What 64 information bits are heard as, once the sync word has been seen.
ghost use Rattle.std.specs.Prelude.{◌≡◌};
ghost use Rattle.polarity.specs.Heard.{heard_of};

use crate::even::{found_in, is_miscorrected, unmarked};
use crate::types::Word;
use refusals::Refusal;

// The record of 64 information bits after which the sync word has been seen, and what was found.
pub fn read_info(mode: u8, info: u64) -> Result<Word, Refusal>
    ensures { result ≡ heard_of mode info }
{
    let rate = modes::rate_of(mode)?;
    if is_miscorrected(rate, info) {
        return Err(Refusal::WrongCheck);
    }
    let held = modes::from_bits(mode, info)?;
    Ok(Word {
        record: unmarked(held),
        found: found_in(info),
    })
}
