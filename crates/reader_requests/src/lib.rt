// Requests for the reader: `step`, `block`. What is quoted in this crate is docs/REHEARSAL.md.
//
// types      what is asked for
// answering  which request a line is, and its answer
// holding    the reader that HELD describes
// telling    what was heard, and what is held after it
#![tactic(auto)]

mod answering;
mod holding;
mod telling;
mod types;

pub use answering::answer;
