// A piece of characters to its bits, bits to answers, and answers to lines.
ghost use Rattle.std.specs.Prelude.{◌≡◌, ◌≤◌};
ghost use Rattle.following.specs.Reach.{answers};
ghost use Rattle.bits.specs.Bits.{AllBits};
ghost use Rattle.runs.specs.Run.{placed};
ghost use Rattle.text.specs.Gathered.{out_after};
ghost use Rattle.characters.specs.Characters.{bits_in};
ghost use Rattle.scribe.specs.Told.{fresh_scribe, counted, lines_of, text_of, left_after, telling_of, ToldOf};
ghost use Rattle.scribe.specs.Blocks.{line_of_block, block_told, run_told};
ghost use Rattle.scribe.specs.Loops.{Ready};

use crate::types::{Block, Scribe, Telling};
use refusals::Refusal;
use register::{Reader, Ways};

// "in mode 2 .. after 16,777,216 characters in all". It hears forward only.
const MODE: u8 = 2;

const CHARACTERS: usize = 16_777_216;

impl Scribe {
    pub fn fresh() -> Self
        ensures { result ≡ fresh_scribe }
    {
        Scribe {
            reader: Reader::fresh(MODE, Ways::ForwardOnly),
            bits: 0,
            left: CHARACTERS,
        }
    }
}

// A block of the run, and the line of its answer at a place.
fn told_block(reader: Reader, bits: u64, run: &[u8], out: &mut [u8], at: usize) -> Block
    ensures { (result ≡ block_told reader bits run.now out.old at) × (out.new ≡ out_after (line_of_block reader bits run.now) at out.old) }
{
    let block = reader::block(reader, run.len(), run);
    let so_far = bits.wrapping_add(block.taken as u64);
    let mut text = [0u8; lines::ROOM];
    let length = lines::line(so_far, block.heard, &mut text);
    let next = text::append(&text[..length], out, at);
    Block {
        reader: block.reader,
        bits: so_far,
        taken: block.taken,
        at: next,
    }
}

// The run, block by block.
fn told_run(reader: Reader, bits: u64, run: &[u8], out: &mut [u8]) -> Block
    requires { Ready reader run.now out.old × AllBits run.now }
    ensures { (result ≡ run_told reader bits run.now) × (out.new ≡ placed 0 (lines_of bits (answers reader run.now)) out.old) }
{
    let mut told = Block {
        reader,
        bits,
        taken: 0,
        at: 0,
    };
    let mut rest = run;
    while !rest.is_empty() {
        told = told_block(told.reader, told.bits, rest, out, told.at);
        rest = &rest[told.taken..];
    }
    Block {
        taken: run.len(),
        ..told
    }
}

// How many characters may still come, when so many have come: none where one of them ends the reading, or none came.
fn left_after(left: usize, came: usize, more: bool) -> usize
    requires { came ≤ left }
    ensures { result ≡ left_after left came more }
{
    let goes_on = (0 < came) & more;
    if goes_on {
        return left - came;
    }
    0
}

// The characters that count, sifted to bits where they stand, and told.
fn telling(before: Scribe, characters: &mut [u8], out: &mut [u8]) -> Telling
    requires { Ready before.reader characters.old out.old }
    ensures { (result ≡ telling_of before characters.old) × (characters.new ≡ placed 0 (bits_in (counted before characters.old)) characters.old) × (out.new ≡ placed 0 (text_of before characters.old) out.old) }
{
    let end = before.left.min(characters.len());
    let sifted = characters::sift(&mut characters[..end]);
    let told = told_run(before.reader, before.bits, &characters[..sifted.bits], out);
    Telling {
        scribe: Scribe {
            reader: told.reader,
            bits: told.bits,
            left: left_after(before.left, end, sifted.more),
        },
        length: told.at,
    }
}

// What a piece of characters is told. A piece of none is the end of the input.
pub fn tell(before: Scribe, characters: &mut [u8], out: &mut [u8]) -> Result<Telling, Refusal>
    ensures { ToldOf before characters.old out.old result characters.new out.new }
{
    reader::judge(before.reader)?;
    if out.len() / lines::ROOM < characters.len() {
        return Err(Refusal::NoRoom);
    }
    Ok(telling(before, characters, out))
}
