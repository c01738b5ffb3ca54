// The 23 words of an ancillary packet, whatever record they carry: which words have their form, and how they come into a lent run.
//
// form       whether words have the form of a packet
// placing    the words of 64 information bits, a type and a second byte, in a mode, in the middle of a lent run
#![tactic(auto)]

mod form;
mod placing;

pub use form::judge;
pub use placing::place;
