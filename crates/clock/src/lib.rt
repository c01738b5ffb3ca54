// The clock: addresses of the day and their frame numbers, at each rate.
//
// types      what a frame number of the day is
// counting   the arithmetic that takes an address to its number
// numbers    address to number; the distance from one address to another
// addresses  number to address; an address from clock fields; an address plus a signed count
#![tactic(auto)]

mod addresses;
mod counting;
mod numbers;
mod types;

pub use addresses::{add, address_from, address_of};
pub use numbers::{distance, number_of};
pub use types::DayFrame;
