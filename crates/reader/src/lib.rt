// The linear reader: a step, and a block. What it holds is in the crate `register`, and what is heard in that in `hearing`.
//
// types      what a step and a block answer
// stepping   what a reader is refused for, one bit, and a run of bits up to the first answer
#![tactic(auto)]

mod stepping;
mod types;

pub use stepping::{block, judge, step};
pub use types::{Blocked, Stepped};
