// What is asked for, and what is told.
use clock::DayFrame;
use pictures::Picture;

#[derive(Clone, Copy)]
pub enum Call {
    Number,
    InSecond,
    Address,
    Distance,
    Add,
    Fields,
    KindNumber,
    KindFields,
    PairNumber,
    PairFields,
    HighNumber,
    HighFields,
}

// What a constructor of a kind makes its picture from.
#[derive(Clone, Copy)]
pub enum Given {
    Number(DayFrame),
    Fields(Picture),
}

// What a call told, whichever call it was.
#[derive(Clone, Copy)]
pub enum Told {
    Number(u64),
    Frames(i32),
    At(Picture),
}
