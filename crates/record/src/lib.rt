// The record: 64 information bits and what they say, at each rate.
//
// types      what a record is
// judging    what is turned away, in the bits and in a record alike
// reading    from 64 information bits to a record
// writing    from a record to 64 information bits
#![tactic(auto)]

mod judging;
mod reading;
mod types;
mod writing;

pub use reading::from_bits;
pub use types::{Flags, Groups, Record};
pub use writing::to_bits;
