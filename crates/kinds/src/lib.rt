// The counting modes, each a kind: the four of document 01, and of document 02 the four in which two pictures share an address and the six of high frame rates.
//
// counting   what a kind fixes by its constants, the laws that tie them, and the two constructors, of an address or of a picture
// frames     the kinds of document 01, which count addresses
// pairs      the kinds of pairs, which count pictures
// high       the kinds of high frame rates, likewise
// constants  what holds the constants to their numbers
#![tactic(auto)]

mod constants;
mod counting;
mod frames;
mod high;
mod pairs;

pub use constants::{high_constants, kind_constants, pair_constants};
pub use counting::{CountingMode, CountsAddresses, CountsPictures};
pub use frames::{Frames24, Frames25, Frames30, Frames30Drop};
pub use high::{Frames72, Frames96, Frames100, Frames120As24x5, Frames120As30x4, Frames120Drop};
pub use pairs::{Frames48, Frames50, Frames60, Frames60Drop};
