// A step takes one bit; a block takes bits up to the first answer, the limit, a bad element or the end.
ghost use Rattle.std.specs.Prelude.{◌≡◌, false, ◌<◌};
ghost use Rattle.modes.specs.Modes.{unknown};
ghost use Rattle.register.specs.Held.{held_bits, push, reader_with, unreached};
ghost use Rattle.hearing.specs.Window.{heard_in};
ghost use Rattle.refusals.specs.Answer.{verdict_of};
ghost use Rattle.reader.specs.Steps.{reader_refusals, stepped_of};
ghost use Rattle.reader.specs.Blocks.{is_answer, going, blocked_of};

use crate::types::{Blocked, Stepped};
use hearing::{Heard, heard, is_synced};
use refusals::Refusal;
use register::{Reader, is_unreached};

// The reader with one bit more.
fn pushed(reader: Reader, bit: u8) -> Reader
    requires { (unreached reader ≡ false) × (bit < 2) }
    ensures { result ≡ reader_with reader.mode reader.ways (push (held_bits reader) bit) }
{
    let oldest = (reader.sync % 2) as u64;
    let info = reader.info / 2 + 0x8000_0000_0000_0000 * oldest;
    let sync = reader.sync / 2 + 0x8000 * bit as u16;
    if reader.held < 80 {
        return Reader {
            held: reader.held + 1,
            info,
            sync,
            ..reader
        };
    }
    Reader {
        held: 80,
        info,
        sync,
        ..reader
    }
}

// 2, and 13 straight after it.
pub fn judge(reader: Reader) -> Result<(), Refusal>
    ensures { result ≡ verdict_of (reader_refusals reader) }
{
    if modes::is_unknown(reader.mode) {
        return Err(Refusal::UnknownMode);
    }
    if is_unreached(reader) {
        return Err(Refusal::StateNotReached);
    }
    Ok(())
}

pub fn step(reader: Reader, element: u8) -> Stepped
    ensures { result ≡ stepped_of reader element }
{
    if let Err(refusal) = judge(reader) {
        return Stepped {
            heard: Heard::Refused(refusal),
            reader,
        };
    }
    if 1 < element {
        return Stepped {
            heard: Heard::Refused(Refusal::ElementTooHigh),
            reader,
        };
    }
    let next = pushed(reader, element);
    let answer = heard(next);
    Stepped {
        heard: answer,
        reader: next,
    }
}

// What is heard in a copy of the reader: so that the loop of a block need not keep its own in memory for the sake of the call.
fn heard_apart(reader: Reader) -> Heard
    ensures { result ≡ heard_in reader.mode reader.ways (held_bits reader) }
{
    let same_ways = reader.ways;
    heard(Reader {
        mode: reader.mode,
        ways: same_ways,
        held: reader.held,
        info: reader.info,
        sync: reader.sync,
    })
}

fn is_answer(answer: Heard) -> bool
    ensures { result ≡ is_answer answer }
{
    !matches!(answer, Heard::Nothing)
}

// The bits of a run up to an end, from a reader whose mode and state are sound.
fn feed(reader: Reader, limit: usize, run: &[u8]) -> Blocked
    requires { (unknown reader.mode ≡ false) × (unreached reader ≡ false) }
    ensures { result ≡ going reader limit run.now }
{
    let mut now = reader;
    let end = limit.min(run.len());
    for (taken, element) in run[..end].iter().enumerate() {
        if 1 < *element {
            return Blocked {
                heard: Heard::Refused(Refusal::ElementTooHigh),
                reader: now,
                taken,
            };
        }
        now = pushed(now, *element);
        if is_synced(now) {
            let answer = heard_apart(now);
            if is_answer(answer) {
                return Blocked {
                    heard: answer,
                    reader: now,
                    taken: taken + 1,
                };
            }
        }
    }
    Blocked {
        heard: Heard::Nothing,
        reader: now,
        taken: end,
    }
}

pub fn block(reader: Reader, limit: usize, run: &[u8]) -> Blocked
    ensures { result ≡ blocked_of reader limit run.now }
{
    if let Err(refusal) = judge(reader) {
        return Blocked {
            heard: Heard::Refused(refusal),
            reader,
            taken: 0,
        };
    }
    feed(reader, limit, run)
}
