// Pictures: an address that one or more pictures share, and the numbers of the pictures of a day, at each rate.
//
// How many pictures share an address is named by the place of the last: so every number names some, and no address is without a picture.
//
// types      how pictures are counted, and what a picture is
// judging    what is turned away, for its address or for its place
// numbers    picture to number, of the day and within its second; the distance from one picture to another
// finding    number to picture; a picture from clock fields and a place; a picture plus a signed count
#![tactic(auto)]

mod finding;
mod judging;
mod numbers;
mod types;

pub use finding::{add, picture_from, picture_of};
pub use judging::is_place_outside;
pub use numbers::{distance, number_in_second, number_of};
pub use types::{Counting, Picture, PictureInSecond};
