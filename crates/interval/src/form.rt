// The form of a line, whatever it carries. No pass stops at what it finds or waits for what another found: a sound line has to be looked at
// whole, and is so in less time.
ghost use Rattle.std.specs.Prelude.{◌≡◌, length};
ghost use Rattle.refusals.specs.Answer.{verdict_of};
ghost use Rattle.bits.specs.Bits.{some_above};
ghost use Rattle.interval.specs.Line.{wrong_pair, wrong_crc};
ghost use Rattle.interval.specs.Calls.{form_refusals};

use crate::parity::count_ones;
use refusals::Refusal;

// An element above 1.
fn has_high_element(line: &[u8]) -> bool
    ensures { result ≡ some_above 1 line.now }
{
    line.iter()
        .fold(false, |high, element| high | (1 < *element))
}

// Nine pairs 1, 0, ten elements apart.
fn has_wrong_pair(line: &[u8]) -> bool
    requires { length line.now ≡ 90 }
    ensures { result ≡ wrong_pair line.now }
{
    let mut wrong = false;
    for group in line.chunks(10) {
        wrong |= !group.starts_with(&[1, 0]);
    }
    wrong
}

// The CRC: each of the eight counts is to be even. They are counted side by side, in one pass.
fn has_wrong_crc(line: &[u8]) -> bool
    ensures { result ≡ wrong_crc line.now }
{
    let mut odds = [0u8; 8];
    count_ones(line, &mut odds);
    odds.iter().fold(false, |wrong, odd| wrong | (*odd != 0))
}

// Whether the elements have the form of a line, whatever they carry.
pub fn judge(mode: u8, line: &[u8]) -> Result<(), Refusal>
    ensures { result ≡ verdict_of (form_refusals mode line.now) }
{
    if line.len() != 90 {
        return Err(Refusal::WrongLength);
    }
    modes::rate_of(mode)?;
    let high = has_high_element(line);
    let pair = has_wrong_pair(line);
    let crc = has_wrong_crc(line);
    let sound = !(high | pair | crc);
    if sound {
        return Ok(());
    }
    if high {
        return Err(Refusal::ElementTooHigh);
    }
    if pair {
        return Err(Refusal::WrongSync);
    }
    Err(Refusal::WrongCheck)
}
