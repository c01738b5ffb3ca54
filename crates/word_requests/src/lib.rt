// Requests for the three carriers: `ltc-read`, `vitc-read`, `atc-read`, `ltc-write`, `vitc-write`, `atc-write`.
// What is quoted in this crate is docs/REHEARSAL.md.
//
// types      what is asked for
// faces      the interface that a request for a packet names
// answering  which request a line is, and its answer
// reading    reads of linear words, vertical interval lines and packets
// writing    writes of them
#![tactic(auto)]

mod answering;
mod faces;
mod reading;
mod types;
mod writing;

pub use answering::answer;
