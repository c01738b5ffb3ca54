// Characters sifted to the bits that they stand for, in the lent run where they stand.
//
// types      what sifting answers
// sifting    the bits of a run of characters
#![tactic(auto)]

mod sifting;
mod types;

pub use sifting::sift;
pub use types::Sifted;
