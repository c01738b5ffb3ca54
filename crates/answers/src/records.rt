// Fields that are bytes, a picture, a record, and what was found beside it.
ghost use Rattle.answers.specs.Places.{Extended};

use crate::text::Answer;
use pictures::Picture;
use polarity::Found;
use record::Record;

// RECORD: `H M S F drop colour mark bgf0 bgf1 bgf2 G1 .. G8 P`.
fn fields_of(record: Record) -> [u8; 19] {
    let Record {
        address,
        flags,
        groups,
        place,
    } = record;
    [
        address.hours,
        address.minutes,
        address.seconds,
        address.frames.0,
        u8::from(flags.drop),
        u8::from(flags.colour),
        u8::from(flags.mark),
        u8::from(flags.bgf0),
        u8::from(flags.bgf1),
        u8::from(flags.bgf2),
        groups.group1,
        groups.group2,
        groups.group3,
        groups.group4,
        groups.group5,
        groups.group6,
        groups.group7,
        groups.group8,
        place,
    ]
}

impl<'a> Answer<'a> {
    pub fn put_byte(&mut self, byte: u8)
        ensures { Extended self.old self.new }
    {
        self.put_number(u64::from(byte));
    }

    fn put_bytes(&mut self, bytes: &[u8])
        ensures { Extended self.old self.new }
    {
        for byte in bytes {
            self.put_byte(*byte);
        }
    }

    // `address H M S F P`.
    pub fn put_picture(&mut self, picture: Picture)
        ensures { Extended self.old self.new }
    {
        let Picture { address, place } = picture;
        self.put_text(b"address");
        self.put_bytes(&[
            address.hours,
            address.minutes,
            address.seconds,
            address.frames.0,
            place,
        ]);
    }

    pub fn put_record(&mut self, record: Record)
        ensures { Extended self.old self.new }
    {
        self.put_text(b"record");
        self.put_bytes(&fields_of(record));
    }

    // `record RECORD FOUND`, of a linear word.
    pub fn put_read(&mut self, record: Record, found: Found)
        ensures { Extended self.old self.new }
    {
        self.put_record(record);
        self.put_byte(u8::from(found));
    }
}
