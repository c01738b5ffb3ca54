// The line of an answer, and the last line, on lent runs.
//
// telling    each line from its parts
#![tactic(auto)]

mod telling;

pub use telling::{ROOM, end_line, line};
