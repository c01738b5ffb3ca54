// What a host hands over and what it is given, as plain numbers: structs that C and Rust lay out alike, and the way between them and our own types.
//
// types      pictures, records, contents of packets, readers and answers, in numbers
// given      from a host's numbers to our types, and the numbers that stand for nothing
// shown      from our types to a host's numbers
// answers    each answer as a code and what stands beside it
#![tactic(auto)]

mod answers;
mod given;
mod shown;
mod types;

pub use answers::{code_alone, written};
pub use given::{
    flag_given, has_flag_above_1, interface_given, is_no_flag, is_no_interface, is_no_make,
    is_no_ways, make_given,
};
pub use types::{
    BlockAnswer, DistanceAnswer, LineAnswer, NumberAnswer, PacketAnswer, PictureAnswer,
    PlainContents, PlainHeard, PlainPicture, PlainReader, PlainRecord, SecondAnswer, StepAnswer,
    WordAnswer,
};
