// Lent runs: the number that a run of bits stands for, a number written into a run, and what every write into the middle of a run has in common.
//
// types      why a run has no number
// carry      one bit to an element, low bit first
// room       room for a write from a start on
#![tactic(auto)]

mod carry;
mod room;
mod types;

pub use carry::{gather, scatter};
pub use room::lacks_room;
pub use types::NoNumber;
