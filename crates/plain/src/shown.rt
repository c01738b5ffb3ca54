// From our types to a host's numbers.
ghost use Rattle.std.specs.Prelude.{◌≡◌};
ghost use Rattle.plain.specs.Shown.{picture_shown, record_shown, reader_shown};

use crate::types::{PlainPicture, PlainReader, PlainRecord};
use pictures::Picture;
use record::Record;
use register::Reader;

impl From<Picture> for PlainPicture {
    ghost from_gives = { λ p shown. shown ≡ picture_shown p };

    fn from(p: Picture) -> PlainPicture {
        let a = p.address;
        PlainPicture {
            hours: a.hours,
            minutes: a.minutes,
            seconds: a.seconds,
            frames: a.frames.0,
            place: p.place,
        }
    }
}

impl From<Record> for PlainRecord {
    ghost from_gives = { λ r shown. shown ≡ record_shown r };

    #[tactic(auto, unfolding(crate::specs::Shown::record_shown))]
    fn from(r: Record) -> PlainRecord {
        let a = r.address;
        let f = r.flags;
        let g = r.groups;
        PlainRecord {
            hours: a.hours,
            minutes: a.minutes,
            seconds: a.seconds,
            frames: a.frames.0,
            drop: u8::from(f.drop),
            colour: u8::from(f.colour),
            mark: u8::from(f.mark),
            bgf0: u8::from(f.bgf0),
            bgf1: u8::from(f.bgf1),
            bgf2: u8::from(f.bgf2),
            group1: g.group1,
            group2: g.group2,
            group3: g.group3,
            group4: g.group4,
            group5: g.group5,
            group6: g.group6,
            group7: g.group7,
            group8: g.group8,
            place: r.place,
        }
    }
}

impl From<Reader> for PlainReader {
    ghost from_gives = { λ reader shown. shown ≡ reader_shown reader };

    fn from(reader: Reader) -> PlainReader {
        PlainReader {
            info: reader.info,
            sync: reader.sync,
            mode: reader.mode,
            ways: u8::from(reader.ways),
            held: reader.held,
        }
    }
}
