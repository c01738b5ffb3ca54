use register::Reader;

// A reader, the bits so far, and how many characters may still come: none once the reading has ended.
#[derive(Clone, Copy)]
pub struct Scribe {
    pub reader: Reader,
    pub bits: u64,
    pub left: usize,
}

// The scribe after a piece of characters, and the length of the lines that it wrote at the start of the lent run.
// A length and no slice: `tell` promises of the whole lent run what it leaves.
#[derive(Clone, Copy)]
pub struct Telling {
    pub scribe: Scribe,
    pub length: usize,
}

// A reader and the bits so far, how many bits of the run were taken, and the place after the lines so far.
#[derive(Clone, Copy)]
pub struct Block {
    pub reader: Reader,
    pub bits: u64,
    pub taken: usize,
    pub at: usize,
}
