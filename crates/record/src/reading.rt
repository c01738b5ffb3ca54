// From 64 information bits to a record.
ghost use Rattle.std.specs.Prelude.{◌≡◌};
ghost use Rattle.layout.specs.Flags.{places};
ghost use Rattle.record.specs.Record.{address_held, flags_held, groups_held, record_of, digit_above_9};
ghost use Rattle.record.specs.Calls.{unpacked_of};

use crate::judging::judge;
use crate::types::{Flags, Groups, Record};
use layout::{by_25, flag};
use rates::{Address, Rate, SecondFrame};
use refusals::Refusal;

fn has_bad_digit(info: u64) -> bool
    ensures { result ≡ digit_above_9 info }
{
    9 < info / 0x1 % 16
        || 9 < info / 0x1_0000 % 16
        || 9 < info / 0x1_0000_0000 % 16
        || 9 < info / 0x1_0000_0000_0000 % 16
}

fn address_held(info: u64) -> Address
    ensures { result ≡ address_held info }
{
    let frames = (info / 0x1 % 16 + 10 * (info / 0x100 % 4)) as u8;
    let seconds = (info / 0x1_0000 % 16 + 10 * (info / 0x100_0000 % 8)) as u8;
    let minutes = (info / 0x1_0000_0000 % 16 + 10 * (info / 0x100_0000_0000 % 8)) as u8;
    let hours = (info / 0x1_0000_0000_0000 % 16 + 10 * (info / 0x100_0000_0000_0000 % 4)) as u8;
    Address {
        hours,
        minutes,
        seconds,
        frames: SecondFrame(frames),
    }
}

fn flags_held(rate: Rate, info: u64) -> Flags
    ensures { result ≡ flags_held (places rate) info }
{
    let at27 = flag(info / 0x800_0000 % 2);
    let at43 = flag(info / 0x800_0000_0000 % 2);
    let at59 = flag(info / 0x800_0000_0000_0000 % 2);
    Flags {
        drop: flag(info / 0x400 % 2),
        colour: flag(info / 0x800 % 2),
        mark: by_25(rate, at59, at27),
        bgf0: by_25(rate, at27, at43),
        bgf1: flag(info / 0x400_0000_0000_0000 % 2),
        bgf2: by_25(rate, at43, at59),
    }
}

fn groups_held(info: u64) -> Groups
    ensures { result ≡ groups_held info }
{
    Groups {
        group1: (info / 0x10 % 16) as u8,
        group2: (info / 0x1000 % 16) as u8,
        group3: (info / 0x10_0000 % 16) as u8,
        group4: (info / 0x1000_0000 % 16) as u8,
        group5: (info / 0x10_0000_0000 % 16) as u8,
        group6: (info / 0x1000_0000_0000 % 16) as u8,
        group7: (info / 0x10_0000_0000_0000 % 16) as u8,
        group8: (info / 0x1000_0000_0000_0000 % 16) as u8,
    }
}

fn record_held(rate: Rate, info: u64) -> Record
    ensures { result ≡ record_of rate info }
{
    Record {
        address: address_held(info),
        flags: flags_held(rate, info),
        groups: groups_held(info),
        place: 0,
    }
}

pub fn from_bits(rate: Rate, info: u64) -> Result<Record, Refusal>
    ensures { result ≡ unpacked_of rate info }
{
    let record = record_held(rate, info);
    judge(rate, has_bad_digit(info), false, record)?;
    Ok(record)
}
