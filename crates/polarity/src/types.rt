ghost use Rattle.std.specs.Prelude.{◌≡◌};
ghost use Rattle.polarity.specs.Numbers.{found_number};

use record::Record;

// What was found in a linear word, and what one is to be made: corrected, its zeros even, or uncorrected.
#[derive(Clone, Copy, PartialEq, Eq)]
pub enum Found {
    Corrected,
    Uncorrected,
}

impl From<Found> for u8 {
    fn from(found: Found) -> u8
        ensures { result ≡ found_number found }
    {
        found as u8
    }
}

// What a linear word says: its record, and what was found.
#[derive(Clone, Copy)]
pub struct Word {
    pub record: Record,
    pub found: Found,
}
