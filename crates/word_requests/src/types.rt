// What is asked for.

// The two carriers that have a bit to an element.
#[derive(Clone, Copy)]
pub enum Carrier {
    Ltc,
    Vitc,
}

#[derive(Clone, Copy)]
pub enum Request {
    BitsRead(Carrier),
    WordsRead,
    BitsWrite(Carrier),
    WordsWrite,
}
