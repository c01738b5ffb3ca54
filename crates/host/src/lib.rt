// What a C or Rust program links: each call by its C name, on plain numbers and lent runs. The promise of each names what the call below it answers; what C can hand over and our types
// can't is turned away first.
//
// unnamed    the number for a byte that stands for nothing
// counting   the number of a picture, its number within its second, the picture of a number, distances and sums
// carriers   linear words, vertical interval lines and ancillary packets
// reading    a reader, fed bit by bit or in blocks
#![tactic(auto)]

mod carriers;
mod counting;
mod reading;
mod unnamed;

pub use carriers::{
    shx_atc_read, shx_atc_write, shx_ltc_read, shx_ltc_write, shx_vitc_read, shx_vitc_write,
};
pub use counting::{shx_add, shx_distance, shx_number, shx_number_in_second, shx_picture};
pub use reading::{shx_block, shx_fresh, shx_step};
