// Round the day: the distance from one number to another, and a number plus a signed count.
//
// Both answer for every day and every number. That the distance is the shorter way is said of numbers of a day whose count is even, as every
// day of the clock's is.
//
// A day is named by its last number: so every number names one, and none is without numbers.
//
// distances  from one number to another
// sums       a number and a signed count
#![tactic(auto)]

mod distances;
mod sums;

pub use distances::distance;
pub use sums::sum;
