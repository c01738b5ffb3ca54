// What is turned away: document 01's table, in its order and words, and after it what requests of document 02 add.
//
// types      the refusals, each with its number
#![tactic(auto)]

mod types;

pub use types::Refusal;
