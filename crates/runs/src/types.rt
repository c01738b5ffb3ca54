// Why a run stands for no number: it has more than 64 elements, or one above 1.
#[derive(Clone, Copy, Debug, PartialEq, Eq)]
pub enum NoNumber {
    TooLong,
    NoBit,
}
