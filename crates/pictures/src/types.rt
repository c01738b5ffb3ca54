use rates::{Address, Rate};

// How pictures are counted: the rate at which their addresses count, and the place of the last picture that shares an address.
#[derive(Clone, Copy)]
pub struct Counting {
    pub rate: Rate,
    pub last: u8,
}

// A picture: the address that it shares with others, and its place among them, 0 the first.
#[derive(Clone, Copy)]
pub struct Picture {
    pub address: Address,
    pub place: u8,
}

// The number of a picture within its second, which ends at 59 where two share an address at 30, and at 119 at 120. A kind of its own, so that it is mixed neither with a number of the day
// nor with the frames of an address, which end at 29.
#[derive(Clone, Copy)]
pub struct PictureInSecond(pub u16);
