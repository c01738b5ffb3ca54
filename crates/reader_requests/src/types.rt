// What is asked for.

#[derive(Clone, Copy)]
pub enum Request {
    Step,
    Block,
}
