// What answers are made of. Each call puts something into the run that is lent for an answer, where its next byte goes; a field brings the
// space before it. What is quoted in this crate is docs/REHEARSAL.md.
//
// text       an answer, and text as it is
// numbers    numbers in decimal
// records    fields that are bytes, a picture, a record, and what was found beside it
// elements   the elements of a run
#![tactic(auto)]

mod elements;
mod numbers;
mod records;
mod text;

pub use text::Answer;
