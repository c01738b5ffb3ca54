// The ancillary packet (ATC): 23 words of ten bits, and the record, payload type and second byte that they carry.
//
// types      the interfaces, and what a packet carries
// lines      the line numbers that a second byte may claim, by interface
// payload    the payload types of each family, what a type and a second byte are turned away with, and the record in the 64 bits
// reading    from 23 words to record, type and second byte
// writing    from record, type and second byte to 23 words in the middle of a lent run
#![tactic(auto)]

mod lines;
mod payload;
mod reading;
mod types;
mod writing;

pub use reading::read;
pub use types::{Contents, Interface};
pub use writing::write;
