// The rehearsal: answers each line of its input, a request, by a line of its output.
// What is quoted in this crate is docs/REHEARSAL.md.
// Here are the pieces and lines of the input, and the writing of the answers.
//
// families   which family of requests a line belongs to, and its answer
// types      a line of the input, and how the reading of it ended
#![tactic(auto)]

ghost use Rattle.std.specs.Prelude.{IfOk};
ghost use Rattle.rehearsal.specs.Ends.{IsLast};

mod families;
mod types;

use answers::Answer;
use families::{answer, put_unknown};
use std::io::{self, Read, Stdin, Stdout, Write};
use types::{End, Line};

// The longest answer, to an `atc-write` into 400 words that is refused, has 1,610 characters and a line feed.
const ROOM: usize = 2048;

// As much as is read at once.
const PIECE: usize = 4096;

// Each answer is written by itself, so that it is there before the next line comes. It fails where the output takes no more.
fn answer_line(output: &mut Stdout, line: &Line) -> io::Result<()> {
    let mut out = [0u8; ROOM];
    let length = match line.text() {
        Some(text) => answer(text, &mut out),
        None => put_unknown(&mut out),
    };
    let mut answer = Answer {
        room: &mut out,
        length,
    };
    answer.put(b'\n');
    let end = answer.length;
    output.write_all(&out[..end])
}

fn end_line(output: &mut Stdout, line: &mut Line) -> io::Result<()> {
    let written = answer_line(output, line);
    line.clear();
    written
}

// A line feed ends what came before it; what stands behind the last one is the beginning of a line.
fn take_bytes(output: &mut Stdout, piece: &[u8], line: &mut Line) -> io::Result<()> {
    let mut parts = piece.split(|byte| *byte == b'\n');
    if let Some(end) = parts.next() {
        line.extend(end);
    }
    for beginning in parts {
        end_line(output, line)?;
        line.extend(beginning);
    }
    Ok(())
}

// Reads what is there, and answers the lines that end in it before it reads on: a read that brings less than a piece ends nothing. A
// proved loop has to end, and nothing says that an input does: so it counts its pieces, and stops by itself only after more than any
// input has.
fn take_all(input: &mut Stdin, output: &mut Stdout, line: &mut Line) -> io::Result<End>
    ensures { IfOk result IsLast }
{
    let mut piece = [0; PIECE];
    let mut pieces: u64 = 0;
    for _ in 0..u64::MAX {
        let came = input.read(&mut piece).unwrap_or(0);
        if came == 0 {
            return Ok(End::Input(came));
        }
        take_bytes(output, &piece[..came], line)?;
        pieces += 1;
    }
    Ok(End::Pieces(pieces))
}

fn main(rt: HostRuntime) {
    let mut input = rt.stdin();
    let mut output = rt.stdout();
    let mut line = Line::new();
    let _end = take_all(&mut input, &mut output, &mut line);
    // A last line that no line feed ends.
    if !line.is_empty() {
        let _written = answer_line(&mut output, &line);
    }
}
