// From a linear word to a record and what was found.
ghost use Rattle.std.specs.Prelude.{◌≡◌};
ghost use Rattle.ltc.specs.Calls.{read_of};

use polarity::Word;
use refusals::Refusal;

pub fn read(mode: u8, word: &[u8]) -> Result<Word, Refusal>
    ensures { result ≡ read_of mode word.now }
{
    if word.len() != 80 {
        return Err(Refusal::WrongLength);
    }
    modes::rate_of(mode)?;
    let low = runs::gather(&word[0..64]);
    let high = runs::gather(&word[64..80]);
    let Ok(info) = low else {
        return Err(Refusal::ElementTooHigh);
    };
    let Ok(sync) = high else {
        return Err(Refusal::ElementTooHigh);
    };
    if sync != 0xbffc {
        return Err(Refusal::WrongSync);
    }
    polarity::read_info(mode, info)
}
