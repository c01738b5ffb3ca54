// What requests are made of.

// "a line has at most 2,000 characters"
pub const LONGEST_LINE: usize = 2000;

// What a field holds, where it holds a number: a byte, COUNT, a flag, KIND, the KIND of a high frame rate, LENGTH, N, or one of START and
// LIMIT.
#[derive(Clone, Copy)]
pub enum Field {
    Byte,
    Count,
    Flag,
    Kind,
    HighKind,
    Length,
    Number,
    Start,
}
