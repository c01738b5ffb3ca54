use hearing::Heard;
use register::Reader;

// What a step answers, and the reader after it.
#[derive(Clone, Copy)]
pub struct Stepped {
    pub heard: Heard,
    pub reader: Reader,
}

// What a block answers, the reader after it, and the number of bits that it took.
#[derive(Clone, Copy)]
pub struct Blocked {
    pub heard: Heard,
    pub reader: Reader,
    pub taken: usize,
}
