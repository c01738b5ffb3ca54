// The bits of a linear word: its zeros, its polarity bit, and whether it was corrected; and what 64 information bits are heard as.
//
// types      corrected or not, and what a word is read as
// even       the zeros and the polarity bit, and a record without that bit
// hearing    from 64 information bits after which the sync word has been seen, to a record and what was found
#![tactic(auto)]

mod even;
mod hearing;
mod types;

pub use even::has_odd_zeros;
pub use hearing::read_info;
pub use types::{Found, Word};
