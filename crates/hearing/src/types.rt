ghost use Rattle.std.specs.Prelude.{◌≡◌};
ghost use Rattle.hearing.specs.Numbers.{way_number};

use polarity::Found;
use record::Record;
use refusals::Refusal;

// Which way a word runs: as it was written, or from its last bit to its first.
#[derive(Clone, Copy, PartialEq, Eq)]
pub enum Way {
    Forward,
    Backward,
}

impl From<Way> for u8 {
    fn from(way: Way) -> u8
        ensures { result ≡ way_number way }
    {
        way as u8
    }
}

// What an accepted word is reported as: its record whole, what was found, and which way it runs.
#[derive(Clone, Copy)]
pub struct Report {
    pub record: Record,
    pub found: Found,
    pub way: Way,
}

// Three cases, and no Result of an Option: the answer of a step was asked for in this form.
#[derive(Clone, Copy)]
pub enum Heard {
    Nothing,
    Accepted(Report),
    Refused(Refusal),
}
