// From a host's numbers to our types. Each is total: what stands for nothing is told apart by a test, before the call is made.
ghost use Rattle.std.specs.Prelude.{◌≡◌};
ghost use Rattle.layout.specs.Flags.{flag_of};
ghost use Rattle.plain.specs.Given.{picture_given, flags_given, groups_given, record_given, no_flag, flag_above_1, no_interface, interface_given, no_make, make_given, no_ways, ways_given, reader_given};

use crate::types::{PlainPicture, PlainReader, PlainRecord};
use atc::Interface;
use pictures::Picture;
use polarity::Found;
use rates::{Address, Flag, SecondFrame};
use record::{Flags, Groups, Record};
use register::{Reader, Ways};

// No `From`: neither a byte nor a Flag is a type of this crate; nor is an Interface, a Found or a Ways, below.
pub fn flag_given(byte: u8) -> Flag
    ensures { result ≡ flag_of byte }
{
    layout::flag(byte as u64)
}

impl From<PlainPicture> for Picture {
    ghost from_gives = { λ p given. given ≡ picture_given p };

    fn from(p: PlainPicture) -> Picture {
        Picture {
            address: Address {
                hours: p.hours,
                minutes: p.minutes,
                seconds: p.seconds,
                frames: SecondFrame(p.frames),
            },
            place: p.place,
        }
    }
}

impl From<PlainRecord> for Flags {
    ghost from_gives = { λ r given. given ≡ flags_given r };

    #[tactic(auto, unfolding(crate::specs::Given::flags_given))]
    fn from(r: PlainRecord) -> Flags {
        Flags {
            drop: flag_given(r.drop),
            colour: flag_given(r.colour),
            mark: flag_given(r.mark),
            bgf0: flag_given(r.bgf0),
            bgf1: flag_given(r.bgf1),
            bgf2: flag_given(r.bgf2),
        }
    }
}

impl From<PlainRecord> for Groups {
    ghost from_gives = { λ r given. given ≡ groups_given r };

    #[tactic(auto, unfolding(crate::specs::Given::groups_given))]
    fn from(r: PlainRecord) -> Groups {
        Groups {
            group1: r.group1,
            group2: r.group2,
            group3: r.group3,
            group4: r.group4,
            group5: r.group5,
            group6: r.group6,
            group7: r.group7,
            group8: r.group8,
        }
    }
}

impl From<PlainRecord> for Record {
    ghost from_gives = { λ r given. given ≡ record_given r };

    #[tactic(auto, unfolding(crate::specs::Given::record_given))]
    fn from(r: PlainRecord) -> Record {
        Record {
            address: Address {
                hours: r.hours,
                minutes: r.minutes,
                seconds: r.seconds,
                frames: SecondFrame(r.frames),
            },
            flags: Flags::from(r),
            groups: Groups::from(r),
            place: r.place,
        }
    }
}

#[tactic(auto, unfolding(crate::specs::Given::flag_above_1))]
pub fn has_flag_above_1(r: PlainRecord) -> bool
    ensures { result ≡ flag_above_1 r }
{
    (1 < r.drop)
        | ((1 < r.colour) | ((1 < r.mark) | ((1 < r.bgf0) | ((1 < r.bgf1) | (1 < r.bgf2)))))
}

// Tests by themselves, and no `TryFrom`: a byte that stands for nothing is refused by 3 only where nothing before 3 applies, which a call knows.
pub fn is_no_flag(flag: u8) -> bool
    ensures { result ≡ no_flag flag }
{
    1 < flag
}

pub fn is_no_interface(interface: u8) -> bool
    ensures { result ≡ no_interface interface }
{
    2 < interface
}

pub fn is_no_make(make: u8) -> bool
    ensures { result ≡ no_make make }
{
    1 < make
}

pub fn is_no_ways(ways: u8) -> bool
    ensures { result ≡ no_ways ways }
{
    1 < ways
}

pub fn interface_given(byte: u8) -> Interface
    ensures { result ≡ interface_given byte }
{
    match byte {
        0 => Interface::Lines525,
        1 => Interface::Lines625,
        _ => Interface::HighDefinition,
    }
}

pub fn make_given(byte: u8) -> Found
    ensures { result ≡ make_given byte }
{
    if byte == 0 {
        return Found::Corrected;
    }
    Found::Uncorrected
}

fn ways_given(byte: u8) -> Ways
    ensures { result ≡ ways_given byte }
{
    if byte == 0 {
        return Ways::ForwardOnly;
    }
    Ways::Both
}

impl From<PlainReader> for Reader {
    ghost from_gives = { λ reader given. given ≡ reader_given reader };

    fn from(reader: PlainReader) -> Reader {
        Reader {
            mode: reader.mode,
            ways: ways_given(reader.ways),
            held: reader.held,
            info: reader.info,
            sync: reader.sync,
        }
    }
}
