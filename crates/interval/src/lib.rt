// The 90 elements of a vertical interval line, whatever record they carry: which elements have their form, and how they come into a lent run.
//
// parity     the CRC's eight counts, each as one bit
// form       whether elements have the form of a line
// placing    the line of 64 information bits, in the middle of a lent run
#![tactic(auto)]

mod form;
mod parity;
mod placing;

pub use form::judge;
pub use placing::place;
