// Fields that hold the elements of a run: BITS and WORDS, `-` for the empty run.
ghost use Rattle.std.specs.Prelude.{◌≤◌, length, IfSome, IsNone};
ghost use Rattle.requests.specs.Parsing.{rest_of};

use crate::fields::Fields;
use crate::numbers::number_in;

// BITS, "one element a character": how many there are, unless the text is no BITS or has more than the run.
pub fn bits_in(text: &[u8], run: &mut [u8]) -> Option<usize>
    ensures { IfSome result (λ count. count ≤ length run.old) }
{
    if text == b"-".as_slice() {
        return Some(0);
    }
    if text.is_empty() {
        return None;
    }
    for (place, character) in run.get_mut(..text.len())?.iter_mut().zip(text) {
        match *character {
            b'0'..=b'9' => *place = *character - b'0',
            _ => return None,
        }
    }
    Some(text.len())
}

// One of WORDS: "upper-case hex, at least three digits".
fn word_in(text: &[u8]) -> Option<u16> {
    if text.len() < 3 {
        return None;
    }
    u16::try_from(number_in(text, 16, 0xffff)?).ok()
}

// How many words there are, "commas between", unless one is none or there are more than the run has.
fn words_in(text: &[u8], run: &mut [u16]) -> Option<usize>
    ensures { IfSome result (λ count. count ≤ length run.old) }
{
    if text == b"-".as_slice() {
        return Some(0);
    }
    let count = text.split(|c| *c == b',').count();
    let words = text.split(|c| *c == b',');
    for (place, word) in run.get_mut(..count)?.iter_mut().zip(words) {
        *place = word_in(word)?;
    }
    Some(count)
}

impl<'a> Fields<'a> {
    // How many there are, and no slice of the run: of a run that the result borrows from, a caller would not know that it keeps its length.
    pub fn bits(&mut self, run: &mut [u8]) -> Option<usize>
        ensures missing { IsNone (rest_of self.old) → IsNone result }
        ensures bounded { IfSome result (λ count. count ≤ length run.old) }
    {
        bits_in(self.next_field()?, run)
    }

    pub fn words(&mut self, run: &mut [u16]) -> Option<usize>
        ensures missing { IsNone (rest_of self.old) → IsNone result }
        ensures bounded { IfSome result (λ count. count ≤ length run.old) }
    {
        words_in(self.next_field()?, run)
    }
}
