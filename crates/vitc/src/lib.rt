// The vertical interval line (VITC): 90 bits, one to an element, and the record that they hold.
//
// reading    from a line to a record
// writing    from a record to a line in the middle of a lent run
#![tactic(auto)]

mod reading;
mod writing;

pub use reading::read;
pub use writing::write;
