// The program: characters 0 and 1 in, a line for each answer of the reader out. What is made of the characters is the scribe's; here they are read and
// the lines are written.
#![tactic(auto)]

ghost use Rattle.std.specs.Prelude.{◌≡◌, ◌*◌, ◌≤◌, length, IfOk, IfErr};
ghost use Rattle.scribe.specs.Told.{Brought};
ghost use Rattle.readout.specs.Piece.{PieceTold};

use scribe::{Scribe, Telling};
use std::io::{Read, Stdin, Stdout, Write};

// A read asks for so many characters, and each has room for its line.
const PIECE: usize = 4096;

const LINES: usize = 262_144;

// What is there of the input, told: nothing where it has ended.
fn told_piece(input: &mut Stdin, before: Scribe, piece: &mut [u8], out: &mut [u8]) -> Telling
    requires { Brought before × (64 * length piece.old ≤ length out.old) }
    ensures { PieceTold before out.old result out.new }
{
    let count = input.read(piece).unwrap_or(0);
    scribe::tell(before, &mut piece[..count], out).unwrap()
}

// Piece after piece, until the scribe has ended: an Err has the scribe as it stood when standard output took no more.
fn follow(
    input: &mut Stdin,
    output: &mut Stdout,
    piece: &mut [u8],
    out: &mut [u8],
) -> Result<Scribe, Scribe>
    requires { 64 * length piece.old ≤ length out.old }
    ensures ended { IfOk result (λ scribe. Brought scribe × (scribe.left ≡ 0)) }
    ensures closed { IfErr result Brought }
{
    let mut now = Scribe::fresh();
    while 0 < now.left {
        let told = told_piece(input, now, piece, out);
        now = told.scribe;
        if output.write_all(&out[..told.length]).is_err() {
            return Err(now);
        }
    }
    Ok(now)
}

// The last line.
fn end(output: &mut Stdout, bits: u64) {
    let mut text = [0u8; lines::ROOM];
    let length = lines::end_line(bits, &mut text);
    let _ = output.write_all(&text[..length]);
}

fn main(rt: HostRuntime) {
    let mut input = rt.stdin();
    let mut output = rt.stdout();
    let mut piece = [0u8; PIECE];
    let mut out = [0u8; LINES];
    if let Ok(scribe) = follow(&mut input, &mut output, &mut piece, &mut out) {
        end(&mut output, scribe.bits);
    }
}
