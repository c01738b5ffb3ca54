// What crosses to a host and back. A flag is a byte, 0 for no and 1 for yes. What stands beside the code on a refusal is the default, zeros.

// An address, and its place among the pictures that share it.
#[repr(C)]
#[derive(Clone, Copy, Default)]
pub struct PlainPicture {
    pub hours: u8,
    pub minutes: u8,
    pub seconds: u8,
    pub frames: u8,
    pub place: u8,
}

#[repr(C)]
#[derive(Clone, Copy, Default)]
pub struct PlainRecord {
    pub hours: u8,
    pub minutes: u8,
    pub seconds: u8,
    pub frames: u8,
    pub drop: u8,
    pub colour: u8,
    pub mark: u8,
    pub bgf0: u8,
    pub bgf1: u8,
    pub bgf2: u8,
    pub group1: u8,
    pub group2: u8,
    pub group3: u8,
    pub group4: u8,
    pub group5: u8,
    pub group6: u8,
    pub group7: u8,
    pub group8: u8,
    pub place: u8,
}

// What a packet carries.
#[repr(C)]
#[derive(Clone, Copy, Default)]
pub struct PlainContents {
    pub record: PlainRecord,
    pub payload_type: u8,
    pub second: u8,
}

// A reader: `ways` is 0 where it hears forward only, 1 where it hears both ways.
#[repr(C)]
#[derive(Clone, Copy)]
pub struct PlainReader {
    pub info: u64,
    pub sync: u16,
    pub mode: u8,
    pub ways: u8,
    pub held: u8,
}

// What a reader answers: `found` is 0 for a corrected word, 1 for an uncorrected one; `way` is 0 for a word that runs forward, 1 for one that runs backward.
#[repr(C)]
#[derive(Clone, Copy, Default)]
pub struct PlainHeard {
    pub code: u8,
    pub found: u8,
    pub way: u8,
    pub record: PlainRecord,
}

// The number of a picture of the day.
#[repr(C)]
#[derive(Clone, Copy, Default)]
pub struct NumberAnswer {
    pub code: u8,
    pub number: u32,
}

// The number of a picture within its second: another struct, so that the two are not mixed by accident.
#[repr(C)]
#[derive(Clone, Copy, Default)]
pub struct SecondAnswer {
    pub code: u8,
    pub number: u16,
}

#[repr(C)]
#[derive(Clone, Copy, Default)]
pub struct PictureAnswer {
    pub code: u8,
    pub picture: PlainPicture,
}

#[repr(C)]
#[derive(Clone, Copy, Default)]
pub struct DistanceAnswer {
    pub code: u8,
    pub pictures: i32,
}

// What a linear word holds, and what was found.
#[repr(C)]
#[derive(Clone, Copy, Default)]
pub struct WordAnswer {
    pub code: u8,
    pub found: u8,
    pub record: PlainRecord,
}

// What a vertical interval line holds.
#[repr(C)]
#[derive(Clone, Copy, Default)]
pub struct LineAnswer {
    pub code: u8,
    pub record: PlainRecord,
}

#[repr(C)]
#[derive(Clone, Copy, Default)]
pub struct PacketAnswer {
    pub code: u8,
    pub contents: PlainContents,
}

#[repr(C)]
#[derive(Clone, Copy)]
pub struct StepAnswer {
    pub heard: PlainHeard,
    pub reader: PlainReader,
}

#[repr(C)]
#[derive(Clone, Copy)]
pub struct BlockAnswer {
    pub heard: PlainHeard,
    pub reader: PlainReader,
    pub taken: usize,
}
