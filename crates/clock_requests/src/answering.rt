// Which request a line is, and its answer.
ghost use Rattle.std.specs.Prelude.{◌≤◌, length, IfSome};
ghost use Rattle.answers.specs.Places.{Extended};

use crate::calling::told_for;
use crate::types::{Call, Told};
use answers::Answer;
use refusals::Refusal;
use requests::Fields;

fn call_named(name: &[u8]) -> Option<Call> {
    match name {
        b"number" => Some(Call::Number),
        b"in-second" => Some(Call::InSecond),
        b"address" => Some(Call::Address),
        b"distance" => Some(Call::Distance),
        b"add" => Some(Call::Add),
        b"fields" => Some(Call::Fields),
        b"kind-number" => Some(Call::KindNumber),
        b"kind-fields" => Some(Call::KindFields),
        b"pair-number" => Some(Call::PairNumber),
        b"pair-fields" => Some(Call::PairFields),
        b"high-number" => Some(Call::HighNumber),
        b"high-fields" => Some(Call::HighFields),
        _ => None,
    }
}

fn put_told(answer: &mut Answer, told: Result<Told, Refusal>)
    ensures { Extended answer.old answer.new }
{
    match told {
        Ok(Told::Number(number)) => {
            answer.put_text(b"number");
            answer.put_number(number);
        }
        Ok(Told::Frames(frames)) => {
            answer.put_text(b"distance");
            answer.put_signed(frames);
        }
        Ok(Told::At(picture)) => answer.put_picture(picture),
        Err(refusal) => answer.put_refused(u8::from(refusal)),
    }
}

// How many characters of `out` are the answer, where the line is one of these requests.
pub fn answer(line: &[u8], out: &mut [u8]) -> Option<usize>
    ensures { IfSome result (λ end. end ≤ length out.old) }
{
    let mut fields = Fields::of(line);
    let call = call_named(fields.next_field()?)?;
    let told = told_for(call, fields)?;
    let mut answer = Answer::start(out);
    put_told(&mut answer, told);
    Some(answer.length)
}
