// What the lines that are printed are put together with, in lent runs.
//
// laying     text put into a run
// digits     numbers as text
#![tactic(auto)]

mod digits;
mod laying;

pub use digits::{append_decimal, hex_digit};
pub use laying::append;
