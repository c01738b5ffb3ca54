use record::Record;

// The interface that a packet comes from or goes to, as the caller names it: 525 or 625 lines, or high definition.
#[derive(Clone, Copy)]
pub enum Interface {
    Lines525,
    Lines625,
    HighDefinition,
}

// What a packet carries.
#[derive(Clone, Copy)]
pub struct Contents {
    pub record: Record,
    pub payload_type: u8,
    pub second: u8,
}
