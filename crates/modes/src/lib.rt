// Mode numbers: each is a rate and a number of pictures to an address, and a number past the tables is refused. The calls that count, in modes 0 to 10, and those of the record as
// the linear track and the interval line carry it, in modes 0 to 5.
//
// types      which picture is shown
// table      the row of each mode, and which numbers are unknown
// counting   pictures and their numbers
// packing    64 information bits and a record
// showing    which picture of an address is shown, read or written
#![tactic(auto)]

mod counting;
mod packing;
mod showing;
mod table;
mod types;

pub use counting::{add, distance, number_in_second, number_of, picture_from, picture_of};
pub use packing::{from_bits, to_bits};
pub use showing::{picture_from_bits, picture_to_bits};
pub use table::{counting_of, high_row_of, is_high_rate, is_uncounted, is_unknown, rate_of};
pub use types::Shows;
