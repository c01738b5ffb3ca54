// Taking a line apart: fields that single spaces divide, and the numbers in them.
ghost use Rattle.std.specs.Prelude.{◌≡◌, ◌==◌, ◌≤◌, ◌<◌, ◌↔◌, length, position, IsSome, IsNone, IfSome, option_and_then};
ghost use Rattle.std.specs.List.{before_first};
ghost use Rattle.std.specs.Option.{option_copied, option_map};
ghost use Rattle.requests.specs.Parsing.{rest_of, rest_after, limit_of, Limited};

use crate::numbers::{count_in, number_in};
use crate::types::Field;

fn first_place(text: &[u8], separator: u8) -> Option<usize>
    ensures { result ≡ position (λ c. c == separator) text.now }
{
    text.iter().position(|c| *c == separator)
}

// A text at the first separator: what stands before it, and what stands after it, if there is one.
pub fn part<'a>(text: &'a [u8], separator: u8) -> (&'a [u8], Option<&'a [u8]>)
    ensures first { result.0.now ≡ before_first (λ c. c == separator) text.now }
    ensures rest { option_copied result.1 ≡ rest_after separator text.now }
{
    match first_place(text, separator) {
        Some(end) => (&text[..end], Some(&text[end + 1..])),
        None => (text, None),
    }
}

// The fields of a line that were not taken yet; after the last there is no rest, where an empty rest is an empty field.
#[derive(Clone, Copy)]
pub struct Fields<'a> {
    rest: Option<&'a [u8]>,
}

impl<'a> Fields<'a> {
    pub fn of(line: &'a [u8]) -> Fields<'a>
        ensures { rest_of result ≡ Some line.now }
    {
        Fields { rest: Some(line) }
    }

    // The next field, up to a space or the line's end.
    pub fn next_field(&mut self) -> Option<&'a [u8]>
        ensures field { option_copied result ≡ option_map (before_first (λ c. c == 32)) (rest_of self.old) }
        ensures left { rest_of self.new ≡ option_and_then (rest_after 32) (rest_of self.old) }
    {
        let (field, rest) = part(self.rest?, b' ');
        self.rest = rest;
        Some(field)
    }

    // A line is a request only if nothing is left of it.
    pub fn end(self) -> Option<()>
        ensures { IsSome result ↔ IsNone (rest_of self.entry) }
    {
        match self.rest {
            Some(_) => None,
            None => Some(()),
        }
    }

    pub fn number(&mut self, field: Field) -> Option<u64>
        ensures missing { IsNone (rest_of self.old) → IsNone result }
        ensures bounded { IfSome result (λ n. n ≤ limit_of field) }
    {
        let text = self.next_field()?;
        match field {
            Field::Count => count_in(text),
            _ => number_in(text, 10, field.most()),
        }
    }

    pub fn numbers<const N: usize>(&mut self, form: &[Field; N]) -> Option<[u64; N]>
        ensures missing { 0 < N → IsNone (rest_of self.old) → IsNone result }
        ensures bounded { IfSome result (λ numbers. Limited form.now numbers (length form.now)) }
    {
        let mut numbers = [0; N];
        for (i, field) in form.iter().enumerate() {
            numbers[i] = self.number(*field)?;
        }
        Some(numbers)
    }
}

impl Field {
    // The most that a number in such a field may be; a count is kept as how far it is above the lowest of them.
    pub fn most(self) -> u64
        ensures { result ≡ limit_of self }
    {
        match self {
            Field::Flag => 1,
            Field::Kind => 3,
            Field::HighKind => 5,
            Field::Byte => 255,
            Field::Length => 400,
            Field::Number | Field::Count => 0xffff_ffff,
            Field::Start => u64::MAX,
        }
    }
}
