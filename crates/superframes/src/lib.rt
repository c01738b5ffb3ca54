// High frame rates, modes 6 to 10 (document 02, A6): super-frames whose pictures are told apart by sub-frame bits.
//
// bits       sub-frame bits and a place
// reading    from 64 information bits to a record
// writing    from a record to 64 information bits
// naming     the second byte that names a mode
#![tactic(auto)]

mod bits;
mod naming;
mod reading;
mod writing;

pub use naming::is_misnamed;
pub use reading::from_bits;
pub use writing::to_bits;
