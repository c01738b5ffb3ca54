// What is heard in a register: its upper 16 places are looked at first, and only then, where reverse is allowed, its lower 16.
ghost use Rattle.std.specs.Prelude.{◌≡◌};
ghost use Rattle.register.specs.declared.types.Ways.TheVariants.{Both};
ghost use Rattle.register.specs.Held.{held_bits};
ghost use Rattle.hearing.specs.declared.types.Heard.TheVariants.{Accepted};
ghost use Rattle.hearing.specs.Window.{reporting, backward_in, heard_in};
ghost use Rattle.hearing.specs.Looks.{synced};

use crate::turning::turned;
use crate::types::{Heard, Report, Way};
use polarity::Word;
use register::{Reader, Ways};

// Whether the sync word stands in a register as it does in a word: at the top or, where reverse is allowed, turned round at the bottom. Where it does
// not, nothing is heard, and a block goes on without asking.
pub fn is_synced(reader: Reader) -> bool
    ensures { result ≡ synced reader }
{
    if reader.sync == 0xbffc {
        return true;
    }
    match reader.ways {
        Ways::ForwardOnly => false,
        Ways::Both => reader.info % 0x1_0000 == 0x3ffd,
    }
}

fn reported(word: Word, way: Way) -> Heard
    ensures { result ≡ Accepted (reporting word.«record» word.found way) }
{
    let Word { record, found } = word;
    Heard::Accepted(Report { record, found, way })
}

// What is heard backward, where reverse is allowed. "a bad reversed word is passed over".
fn heard_turned(reader: Reader) -> Heard
    ensures { result ≡ backward_in reader.mode Both (held_bits reader) }
{
    let oldest = reader.info % 0x1_0000;
    if oldest != 0x3ffd {
        return Heard::Nothing;
    }
    if reader.held < 80 {
        return Heard::Nothing;
    }
    let newest = reader.sync as u64;
    let info = turned(reader.info / 0x1_0000 + 0x1_0000_0000_0000 * newest);
    match polarity::read_info(reader.mode, info) {
        Ok(says) => reported(says, Way::Backward),
        Err(_) => Heard::Nothing,
    }
}

fn heard_backward(reader: Reader) -> Heard
    ensures { result ≡ backward_in reader.mode reader.ways (held_bits reader) }
{
    match reader.ways {
        Ways::ForwardOnly => Heard::Nothing,
        Ways::Both => heard_turned(reader),
    }
}

// What is heard in the bits that are held.
pub fn heard(reader: Reader) -> Heard
    ensures { result ≡ heard_in reader.mode reader.ways (held_bits reader) }
{
    if reader.sync != 0xbffc {
        return heard_backward(reader);
    }
    if reader.held < 80 {
        return Heard::Nothing;
    }
    match polarity::read_info(reader.mode, reader.info) {
        Ok(says) => reported(says, Way::Forward),
        Err(refusal) => Heard::Refused(refusal),
    }
}
