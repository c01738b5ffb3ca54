ghost use Rattle.std.specs.Prelude.{◌≡◌};
ghost use Rattle.register.specs.Numbers.{ways_number};

// The ways in which a reader hears words: forward only or, "With reverse allowed", both. It is said when the reader is made and stays for its life.
#[derive(Clone, Copy, PartialEq, Eq)]
pub enum Ways {
    ForwardOnly,
    Both,
}

impl From<Ways> for u8 {
    fn from(ways: Ways) -> u8
        ensures { result ≡ ways_number ways }
    {
        ways as u8
    }
}

// The last 80 bits, or fewer: a new bit enters at the top of `sync`, the oldest leaves at the bottom of `info`, and while fewer than
// 80 are held the places below are zero.
#[derive(Clone, Copy)]
pub struct Reader {
    pub mode: u8,
    pub ways: Ways,
    pub held: u8,
    pub info: u64,
    pub sync: u16,
}
