// Taking a request apart: the fields of a line, and what stands in them. What is quoted in this crate is docs/REHEARSAL.md.
//
// types      what requests are made of
// numbers    the numbers that texts say
// fields     the fields of a line, and the numbers in them
// elements   the runs in them
// values     from the numbers of a request to what the calls take
#![tactic(auto)]

mod elements;
mod fields;
mod numbers;
mod types;
mod values;

pub use elements::bits_in;
pub use fields::{Fields, part};
pub use numbers::number_in;
pub use types::{Field, LONGEST_LINE};
pub use values::{address_in, byte, count, day_frame, picture_in, record_in};
