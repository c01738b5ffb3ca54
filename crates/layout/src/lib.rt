// The 64 information bits: the fields that stand in them side by side, and where each flag stands, by rate.
//
// flags      flags as bits, and what a rate decides of them
#![tactic(auto)]

mod flags;

pub use flags::{bit, by_25, flag, is_unused_colour, mark_value};
