// Writes of linear words, vertical interval lines and packets.
ghost use Rattle.answers.specs.Places.{Extended};

use crate::faces::face_told;
use crate::types::Carrier;
use answers::Answer;
use polarity::Found;
use rates::Flag;
use refusals::Refusal;
use requests::Fields;

// "MAKE says in the same way which is to be written". No `From`: both types are other crates'.
fn make_told(flag: Flag) -> Found {
    match flag {
        Flag::No => Found::Corrected,
        Flag::Yes => Found::Uncorrected,
    }
}

fn put_written(answer: &mut Answer, written: Result<(), Refusal>)
    ensures { Extended answer.old answer.new }
{
    match written {
        Ok(()) => answer.put_text(b"wrote"),
        Err(refusal) => answer.put_refused(u8::from(refusal)),
    }
}

// "RUN is the whole lent run after a write, refused or not".
pub fn answer_bits_write(carrier: Carrier, mut fields: Fields, answer: &mut Answer) -> Option<()>
    ensures { Extended answer.old answer.new }
{
    let mode = fields.byte()?;
    let start = fields.start()?;
    let length = fields.length()?;
    let record = fields.record()?;
    let mut run = [7u8; 400];
    let bits = &mut run[..length];
    let written = match carrier {
        Carrier::Ltc => {
            let make = make_told(fields.flag()?);
            fields.end()?;
            ltc::write(mode, record, make, start, bits)
        }
        Carrier::Vitc => {
            fields.end()?;
            vitc::write(mode, record, start, bits)
        }
    };
    put_written(answer, written);
    answer.put_bits(bits);
    Some(())
}

pub fn answer_words_write(mut fields: Fields, answer: &mut Answer) -> Option<()>
    ensures { Extended answer.old answer.new }
{
    let mode = fields.byte()?;
    let interface = face_told(fields.byte()?)?;
    let start = fields.start()?;
    let length = fields.length()?;
    let record = fields.record()?;
    let payload_type = fields.byte()?;
    let second = fields.byte()?;
    fields.end()?;
    let mut run = [0x777u16; 400];
    let words = &mut run[..length];
    put_written(
        answer,
        atc::write(mode, interface, record, payload_type, second, start, words),
    );
    answer.put_words(words);
    Some(())
}
