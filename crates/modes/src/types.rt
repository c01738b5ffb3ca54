// Which picture of an address a word, a line or a packet shows: the first, or the one that its mark says.
#[derive(Clone, Copy)]
pub enum Shows {
    First,
    ByMark,
}
