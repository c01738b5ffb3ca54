// From the numbers of a request to the values that the calls take: each number was found within the limit of its field.
ghost use Rattle.std.specs.Prelude.{◌≡◌, ◌%◌, ◌<◌, ◌≤◌, ◌^◌, IsNone, IfSome};
ghost use Rattle.std.proofs.Math.IntN.{sub_ℕ};
ghost use Rattle.rates.specs.Face.{showing};
ghost use Rattle.pictures.specs.Pictures.{picture};
ghost use Rattle.requests.specs.Parsing.{rest_of, address_from};

use crate::fields::Fields;
use crate::types::Field;
use clock::DayFrame;
use layout::flag;
use pictures::Picture;
use rates::{Address, Flag, SecondFrame};
use record::{Flags, Groups, Record};

pub fn byte(number: u64) -> u8
    ensures { result ≡ number % 256 }
{
    (number % 256) as u8
}

pub fn day_frame(number: u64) -> DayFrame
    ensures { result.0 ≡ number % 4294967296 }
{
    DayFrame((number % 0x1_0000_0000) as u32)
}

pub fn count(above_lowest: u64) -> i32
    ensures { above_lowest < 2 ^ 32 → result ≡ sub_ℕ above_lowest (2 ^ 31) }
{
    ((above_lowest % 0x1_0000_0000) as i64 - 0x8000_0000) as i32
}

// `H M S F`.
pub fn address_in(hours: u64, minutes: u64, seconds: u64, frames: u64) -> Address
    ensures { result ≡ showing (hours % 256) (minutes % 256) (seconds % 256) (frames % 256) }
{
    Address {
        hours: byte(hours),
        minutes: byte(minutes),
        seconds: byte(seconds),
        frames: SecondFrame(byte(frames)),
    }
}

// `H M S F P`.
pub fn picture_in(hours: u64, minutes: u64, seconds: u64, frames: u64, place: u64) -> Picture
    ensures { result ≡ picture (showing (hours % 256) (minutes % 256) (seconds % 256) (frames % 256)) (place % 256) }
{
    Picture {
        address: address_in(hours, minutes, seconds, frames),
        place: byte(place),
    }
}

fn flags_in(numbers: &[u64; 6]) -> Flags {
    let [drop, colour, mark, bgf0, bgf1, bgf2] = *numbers;
    Flags {
        drop: flag(drop),
        colour: flag(colour),
        mark: flag(mark),
        bgf0: flag(bgf0),
        bgf1: flag(bgf1),
        bgf2: flag(bgf2),
    }
}

fn groups_in(numbers: &[u64; 8]) -> Groups {
    let [
        group1,
        group2,
        group3,
        group4,
        group5,
        group6,
        group7,
        group8,
    ] = *numbers;
    Groups {
        group1: byte(group1),
        group2: byte(group2),
        group3: byte(group3),
        group4: byte(group4),
        group5: byte(group5),
        group6: byte(group6),
        group7: byte(group7),
        group8: byte(group8),
    }
}

// RECORD: `H M S F`, `drop colour mark bgf0 bgf1 bgf2`, `G1 .. G8` and `P`.
pub fn record_in(address: &[u64; 4], flags: &[u64; 6], groups: &[u64; 8], place: u64) -> Record
    ensures { (result.address ≡ address_from 0 address.now) × (result.place ≡ place % 256) }
{
    let [hours, minutes, seconds, frames] = *address;
    Record {
        address: address_in(hours, minutes, seconds, frames),
        flags: flags_in(flags),
        groups: groups_in(groups),
        place: byte(place),
    }
}

impl<'a> Fields<'a> {
    pub fn byte(&mut self) -> Option<u8>
        ensures { IsNone (rest_of self.old) → IsNone result }
    {
        Some(byte(self.number(Field::Byte)?))
    }

    pub fn flag(&mut self) -> Option<Flag>
        ensures { IsNone (rest_of self.old) → IsNone result }
    {
        Some(flag(self.number(Field::Flag)?))
    }

    pub fn day_frame(&mut self) -> Option<DayFrame>
        ensures { IsNone (rest_of self.old) → IsNone result }
    {
        Some(day_frame(self.number(Field::Number)?))
    }

    pub fn count(&mut self) -> Option<i32>
        ensures { IsNone (rest_of self.old) → IsNone result }
    {
        Some(count(self.number(Field::Count)?))
    }

    // LENGTH.
    pub fn length(&mut self) -> Option<usize>
        ensures missing { IsNone (rest_of self.old) → IsNone result }
        ensures bounded { IfSome result (λ n. n ≤ 400) }
    {
        Some(self.number(Field::Length)? as usize)
    }

    // START or LIMIT.
    pub fn start(&mut self) -> Option<usize>
        ensures { IsNone (rest_of self.old) → IsNone result }
    {
        Some(self.number(Field::Start)? as usize)
    }

    pub fn address(&mut self) -> Option<Address>
        ensures { IsNone (rest_of self.old) → IsNone result }
    {
        let [hours, minutes, seconds, frames] = self.numbers(&[Field::Byte; 4])?;
        Some(address_in(hours, minutes, seconds, frames))
    }

    pub fn picture(&mut self) -> Option<Picture>
        ensures { IsNone (rest_of self.old) → IsNone result }
    {
        let [hours, minutes, seconds, frames, place] = self.numbers(&[Field::Byte; 5])?;
        Some(picture_in(hours, minutes, seconds, frames, place))
    }

    pub fn record(&mut self) -> Option<Record>
        ensures { IsNone (rest_of self.old) → IsNone result }
    {
        let address = self.numbers(&[Field::Byte; 4])?;
        let flags = self.numbers(&[Field::Flag; 6])?;
        let groups = self.numbers(&[Field::Byte; 8])?;
        let place = self.number(Field::Byte)?;
        Some(record_in(&address, &flags, &groups, place))
    }
}
