ghost use Rattle.std.specs.Prelude.{◌≡◌};
ghost use Rattle.refusals.specs.Table.{number};

// Why something is turned away. Each is given by its number, where numbers are given.
#[derive(Clone, Copy, Debug, PartialEq, Eq)]
pub enum Refusal {
    // Read: not exactly 80, 90 or 23 elements.
    WrongLength = 1,
    // Mode above 10; on the linear track and the interval line, above 5; where a call is of high frame rates alone, below 6 too.
    UnknownMode = 2,
    // Read or fed: element above 1 (bits) or above 1,023 (words).
    ElementTooHigh = 3,
    // Sync word, a sync pair, or one of the first six packet words is wrong, the fifth by the packet's family.
    WrongSync = 4,
    // Odd zeros (LTC) with the polarity bit 1, CRC, b8 or b9 of a data word, packet checksum word.
    WrongCheck = 5,
    // b0 to b2 of a data word not zero.
    LowBitsSet = 6,
    // Payload type above 2; in modes 6 to 10, other than 80 to 8F hex.
    UnknownType = 7,
    // Digit above 9 in a units field, or hour, minute, second, frame outside the clock; in a record, a group above 15; in modes 3 to 10, a place not below the pictures to an address.
    OutsideTheClock = 8,
    // Mode 2, 5 or 10, drop set, one of the skipped addresses.
    SkippedAddress = 9,
    // Unused bit set (in a record: colour in mode 0 or 3), or drop asked for in mode 0, 1, 3, 4 or 6 to 9; in modes 0 to 2, a place other than 0; in modes 6 to 10, another sub-frame
    // bit than the mode uses, and in a record colour, mark or a group flag.
    UnusedBitSet = 10,
    // LTC write of a record with mark 1. In modes 3 to 5: a VITC line or packet of type 1 or 2 whose mark and pair place differ; LTC and type 0, a second picture.
    MarkSet = 11,
    // Write: fewer than 80, 90 or 23 elements from the start given, or start past the end.
    NoRoom = 12,
    // Reader state that no feeding reaches.
    StateNotReached = 13,
    // Frame number, in modes 3 to 10 a picture's, not below the day's count.
    NumberPastTheDay = 14,
    // A9: types 1 and 2 on 525 or 625 line interfaces, second byte whose low six bits have no entry in Table 4 of source document 000.
    ImpossibleLine = 19,
    // A6: in modes 6 to 10, second byte that does not name the mode given.
    MisnamedMode = 23,
}

impl From<Refusal> for u8 {
    fn from(refusal: Refusal) -> u8
        ensures { result ≡ number refusal }
    {
        refusal as u8
    }
}
