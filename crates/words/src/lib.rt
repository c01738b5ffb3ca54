// Words of ten bits, what an ancillary packet is made of.
//
// making     one word with its b8 and b9, and a run of data words
// sweeps     what is asked of all words: tests and the checksum
#![tactic(auto)]

mod making;
mod sweeps;

pub use making::store_data;
pub use sweeps::{checksum, has_high_word, has_low_bits, has_wrong_word};
