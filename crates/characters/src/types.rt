// How many bits now stand at the start of the run, and whether no character in it ends the reading.
// A flag beside a count, and no Result: the count is wanted either way.
#[derive(Clone, Copy)]
pub struct Sifted {
    pub bits: usize,
    pub more: bool,
}
