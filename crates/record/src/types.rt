use rates::{Address, Flag};

// The flags of a record, each yes or no.
#[derive(Clone, Copy)]
pub struct Flags {
    pub drop: Flag,
    pub colour: Flag,
    pub mark: Flag,
    pub bgf0: Flag,
    pub bgf1: Flag,
    pub bgf2: Flag,
}

// The eight binary groups, each four bits.
#[derive(Clone, Copy)]
pub struct Groups {
    pub group1: u8,
    pub group2: u8,
    pub group3: u8,
    pub group4: u8,
    pub group5: u8,
    pub group6: u8,
    pub group7: u8,
    pub group8: u8,
}

// What a code word, a line or a packet says. The place is that of its picture among those that share the address, 0 the first.
#[derive(Clone, Copy)]
pub struct Record {
    pub address: Address,
    pub flags: Flags,
    pub groups: Groups,
    pub place: u8,
}
