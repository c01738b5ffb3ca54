// Which request a line is, and its answer.
ghost use Rattle.std.specs.Prelude.{◌≤◌, length, IfSome};
ghost use Rattle.answers.specs.Places.{Extended};

use crate::reading::{answer_bits_read, answer_words_read};
use crate::types::{Carrier, Request};
use crate::writing::{answer_bits_write, answer_words_write};
use answers::Answer;
use requests::Fields;

fn request_named(name: &[u8]) -> Option<Request> {
    match name {
        b"ltc-read" => Some(Request::BitsRead(Carrier::Ltc)),
        b"vitc-read" => Some(Request::BitsRead(Carrier::Vitc)),
        b"atc-read" => Some(Request::WordsRead),
        b"ltc-write" => Some(Request::BitsWrite(Carrier::Ltc)),
        b"vitc-write" => Some(Request::BitsWrite(Carrier::Vitc)),
        b"atc-write" => Some(Request::WordsWrite),
        _ => None,
    }
}

fn answer_request(request: Request, fields: Fields, answer: &mut Answer) -> Option<()>
    ensures { Extended answer.old answer.new }
{
    match request {
        Request::BitsRead(carrier) => answer_bits_read(carrier, fields, answer),
        Request::WordsRead => answer_words_read(fields, answer),
        Request::BitsWrite(carrier) => answer_bits_write(carrier, fields, answer),
        Request::WordsWrite => answer_words_write(fields, answer),
    }
}

// How many characters of `out` are the answer, where the line is one of these requests.
pub fn answer(line: &[u8], out: &mut [u8]) -> Option<usize>
    ensures { IfSome result (λ end. end ≤ length out.old) }
{
    let mut fields = Fields::of(line);
    let request = request_named(fields.next_field()?)?;
    let mut answer = Answer::start(out);
    answer_request(request, fields, &mut answer)?;
    Some(answer.length)
}
