// Characters in, lines out: what the program makes of what it reads, on lent runs.
//
// types      where a scribe stands, and what it tells
// copying    a piece of characters to its lines
#![tactic(auto)]

mod copying;
mod types;

pub use copying::tell;
pub use types::{Scribe, Telling};
