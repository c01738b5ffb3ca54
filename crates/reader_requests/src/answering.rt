// Which request a line is, and its answer.
ghost use Rattle.std.specs.Prelude.{◌≤◌, length, IfSome};
ghost use Rattle.answers.specs.Places.{Extended};

use crate::holding::reader_held;
use crate::telling::{put_blocked, put_stepped};
use crate::types::Request;
use answers::Answer;
use rates::Flag;
use register::Ways;
use requests::{Fields, LONGEST_LINE};

fn request_named(name: &[u8]) -> Option<Request> {
    match name {
        b"step" => Some(Request::Step),
        b"block" => Some(Request::Block),
        _ => None,
    }
}

// REVERSE: whether it is allowed. No `From`: both types are other crates'.
fn ways_of(reverse: Flag) -> Ways {
    match reverse {
        Flag::No => Ways::ForwardOnly,
        Flag::Yes => Ways::Both,
    }
}

fn answer_step(mut fields: Fields, answer: &mut Answer) -> Option<()>
    ensures { Extended answer.old answer.new }
{
    let mode = fields.byte()?;
    let ways = ways_of(fields.flag()?);
    let before = reader_held(&mut fields, mode, ways)?;
    let element = fields.byte()?;
    fields.end()?;
    put_stepped(answer, reader::step(before, element));
    Some(())
}

fn answer_block(mut fields: Fields, answer: &mut Answer) -> Option<()>
    ensures { Extended answer.old answer.new }
{
    let mode = fields.byte()?;
    let ways = ways_of(fields.flag()?);
    let before = reader_held(&mut fields, mode, ways)?;
    let limit = fields.start()?;
    let mut run = [0u8; LONGEST_LINE];
    let length = fields.bits(&mut run)?;
    fields.end()?;
    put_blocked(answer, reader::block(before, limit, &run[..length]));
    Some(())
}

// How many characters of `out` are the answer, where the line is one of these requests.
pub fn answer(line: &[u8], out: &mut [u8]) -> Option<usize>
    ensures { IfSome result (λ end. end ≤ length out.old) }
{
    let mut fields = Fields::of(line);
    let request = request_named(fields.next_field()?)?;
    let mut answer = Answer::start(out);
    match request {
        Request::Step => answer_step(fields, &mut answer)?,
        Request::Block => answer_block(fields, &mut answer)?,
    }
    Some(answer.length)
}
