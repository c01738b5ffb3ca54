// What was heard, and what is held after it.
ghost use Rattle.answers.specs.Places.{Extended};

use answers::Answer;
use hearing::Heard;
use reader::{Blocked, Stepped};
use register::Reader;

fn put_heard(answer: &mut Answer, heard: Heard)
    ensures { Extended answer.old answer.new }
{
    match heard {
        Heard::Nothing => answer.put_text(b"nothing"),
        Heard::Accepted(report) => {
            answer.put_read(report.record, report.found);
            // WAY: 0 forward, 1 backward.
            answer.put_byte(u8::from(report.way));
        }
        Heard::Refused(refusal) => answer.put_refused(u8::from(refusal)),
    }
}

// The places of the register, oldest first.
fn places(info: u64, sync: u16) -> [u8; 80] {
    let mut register = u128::from(info) + (u128::from(sync) << 64);
    let mut bits = [0u8; 80];
    for bit in bits.iter_mut() {
        *bit = (register % 2) as u8;
        register /= 2;
    }
    bits
}

// The bits that are held; where a one stands below them, the register from there on, and how many of it are held.
fn put_held(answer: &mut Answer, after: Reader)
    ensures { Extended answer.old answer.new }
{
    let held = usize::from(after.held);
    if 80 < held {
        return answer.put_text(b" !");
    }
    let places = places(after.info, after.sync);
    let empty = 80 - held;
    match places[..empty].iter().position(|place| *place == 1) {
        Some(lowest_one) => {
            answer.put_bits(&places[lowest_one..]);
            answer.put(b'!');
            answer.put_digits(u64::from(after.held));
        }
        None => answer.put_bits(&places[empty..]),
    }
}

pub fn put_stepped(answer: &mut Answer, stepped: Stepped)
    ensures { Extended answer.old answer.new }
{
    put_heard(answer, stepped.heard);
    put_held(answer, stepped.reader);
}

// "as for `step`, and then the number of bits taken".
pub fn put_blocked(answer: &mut Answer, blocked: Blocked)
    ensures { Extended answer.old answer.new }
{
    put_heard(answer, blocked.heard);
    put_held(answer, blocked.reader);
    answer.put_number(blocked.taken as u64);
}
