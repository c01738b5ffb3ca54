// Numbers in decimal.
ghost use Rattle.answers.specs.Places.{Extended};

use crate::text::Answer;

impl<'a> Answer<'a> {
    pub fn put_digits(&mut self, number: u64)
        ensures { Extended self.old self.new }
    {
        let mut digits = [0u8; 20];
        let count = io::decimal(number, &mut digits);
        self.put_text(&digits[..count]);
    }

    pub fn put_number(&mut self, number: u64)
        ensures { Extended self.old self.new }
    {
        self.put(b' ');
        self.put_digits(number);
    }

    pub fn put_signed(&mut self, number: i32)
        ensures { Extended self.old self.new }
    {
        self.put_text(if number < 0 { b" -" } else { b" " });
        self.put_digits(u64::from(number.unsigned_abs()));
    }

    pub fn put_refused(&mut self, number: u8)
        ensures { Extended self.old self.new }
    {
        self.put_text(b"refused");
        self.put_number(u64::from(number));
    }
}
