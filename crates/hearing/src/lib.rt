// What a reader hears in the bits that it holds: a word that runs forward and, where reverse is allowed, one that runs backward.
//
// types      what is heard, and which way it runs
// turning    64 bits in the opposite order
// windows    what is heard in a register
#![tactic(auto)]

mod turning;
mod types;
mod windows;

pub use types::{Heard, Report, Way};
pub use windows::{heard, is_synced};
