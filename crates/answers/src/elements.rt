// The elements of a run: BITS and WORDS, `-` for the empty run.
ghost use Rattle.answers.specs.Places.{Extended};

use crate::text::Answer;

const HEX_DIGITS: [u8; 16] = *b"0123456789ABCDEF";

fn hex_digit(value: u16) -> u8 {
    HEX_DIGITS[usize::from(value % 16)]
}

impl<'a> Answer<'a> {
    // BITS, one element a character.
    pub fn put_bits(&mut self, run: &[u8])
        ensures { Extended self.old self.new }
    {
        self.put(b' ');
        if run.is_empty() {
            self.put(b'-');
        }
        self.put_each(run, |element| b'0' + element % 10);
    }

    // "at least three digits", and a fourth where the word needs it.
    fn put_word(&mut self, word: u16)
        ensures { Extended self.old self.new }
    {
        let digits = [
            hex_digit(word / 0x1000),
            hex_digit(word / 0x100),
            hex_digit(word / 0x10),
            hex_digit(word),
        ];
        self.put_text(if 0xfff < word { &digits } else { &digits[1..] });
    }

    pub fn put_words(&mut self, run: &[u16])
        ensures { Extended self.old self.new }
    {
        let Some((first, others)) = run.split_first() else {
            return self.put_text(b" -");
        };
        self.put(b' ');
        self.put_word(*first);
        for word in others {
            self.put(b',');
            self.put_word(*word);
        }
    }
}
