ghost use Rattle.std.specs.Prelude.{◌≡◌};
ghost use Rattle.rates.specs.Rates.{flag_number};

// A yes or a no of a record or a call. An enum of its own, and no bool: flags were asked for in this form.
#[derive(Clone, Copy, PartialEq, Eq)]
pub enum Flag {
    No,
    Yes,
}

impl From<Flag> for u8 {
    fn from(flag: Flag) -> u8
        ensures { result ≡ flag_number flag }
    {
        flag as u8
    }
}

// The rates of counting: 24, 25 and 30 frames in a second.
#[derive(Clone, Copy)]
pub enum Rate {
    At24,
    At25,
    At30,
}

// A frame number within a second, as an address has it: a kind of its own, so that it is not mixed with a frame number of the day by accident.
#[derive(Clone, Copy)]
pub struct SecondFrame(pub u8);

#[derive(Clone, Copy)]
pub struct Address {
    pub hours: u8,
    pub minutes: u8,
    pub seconds: u8,
    pub frames: SecondFrame,
}
