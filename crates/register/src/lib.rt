// The register of a reader: its last 80 bits in two machine words.
//
// types      what a reader is, and the ways in which it hears
// places     a fresh reader, and the states that no feeding reaches
#![tactic(auto)]

mod places;
mod types;

pub use places::is_unreached;
pub use types::{Reader, Ways};
