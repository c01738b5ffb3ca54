// The reader that HELD describes.
ghost use Rattle.std.specs.Prelude.{◌≡◌, IfSome};

use register::{Reader, Ways};
use requests::{Fields, bits_in, number_in, part};

// BITS or `BITS!N`: the reader with the register that these bits leave. It holds as many as were fed, or says that it holds N. They are fed in
// mode 2, since the request's may be a mode that takes none, and forward only.
fn fed_in(text: &[u8]) -> Option<Reader> {
    let (bits, claim) = part(text, b'!');
    let mut run = [0u8; 80];
    let length = bits_in(bits, &mut run)?;
    let held = match claim {
        Some(number) => number_in(number, 10, 255)?,
        None => length as u64,
    };
    let fed = reader::block(Reader::fresh(2, Ways::ForwardOnly), 80, &run[..length]);
    if fed.taken != length {
        return None;
    }
    Some(Reader {
        held: u8::try_from(held).ok()?,
        ..fed.reader
    })
}

// "`!` for a state that no feeding reaches": here one that holds 81.
pub fn reader_held(fields: &mut Fields, mode: u8, ways: Ways) -> Option<Reader>
    ensures { IfSome result (λ reader. (reader.mode ≡ mode) × (reader.ways ≡ ways)) }
{
    let fed = match fields.next_field()? {
        b"!" => fed_in(b"-!81")?,
        text => fed_in(text)?,
    };
    Some(Reader { mode, ways, ..fed })
}
