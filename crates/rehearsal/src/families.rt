// The families of requests, one after the other: each answers how many characters the answer has, unless the line is none of its requests
// by its name or its fields.
ghost use Rattle.std.specs.Prelude.{◌≤◌, length};

use answers::Answer;

// "A line that is no request gets `unknown`."
pub fn put_unknown(out: &mut [u8]) -> usize
    ensures { result ≤ length out.old }
{
    let mut answer = Answer::start(out);
    answer.put_text(b"unknown");
    answer.length
}

pub fn answer(line: &[u8], out: &mut [u8]) -> usize
    ensures { result ≤ length out.old }
{
    clock_requests::answer(line, out)
        .or_else(|| word_requests::answer(line, out))
        .or_else(|| reader_requests::answer(line, out))
        .unwrap_or_else(|| put_unknown(out))
}
