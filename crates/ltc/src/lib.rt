// Linear words (LTC): 80 bits and a record.
//
// reading    from 80 elements to a record and what was found
// writing    from a record into the middle of a lent run, corrected or not
#![tactic(auto)]

mod reading;
mod writing;

pub use reading::read;
pub use writing::write;
