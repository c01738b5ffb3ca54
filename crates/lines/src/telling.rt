// The line of an answer, and the last line.
ghost use Rattle.std.specs.Prelude.{◌≡◌, ◌+◌, ◌≤◌, length};
ghost use Rattle.refusals.specs.Table.{number};
ghost use Rattle.runs.specs.Run.{placed};
ghost use Rattle.lines.specs.Lines.{numbered, accepted_text, refused_text, line_of, end_line_of};

use figures::{address_text, groups_text};
use hearing::Heard;
use record::Record;
use refusals::Refusal;
use text::{append, append_decimal};

// Room for any line. The longest has 42 characters: 20 digits of bits so far, 11 of an address, 8 of groups, two spaces and a line feed.
pub const ROOM: usize = 64;

// A run and a place go side by side, as `text::append` takes them; no `Display`, since `line` and `end_line` promise the characters.
fn lay_accepted(r: Record, text: &mut [u8], at: usize) -> usize
    requires { at + 22 ≤ length text.old }
    ensures { (result ≡ at + length (accepted_text r)) × (text.new ≡ placed at (accepted_text r) text.old) }
{
    let middle = append(&address_text(r), text, at);
    append(&groups_text(r.groups), text, middle)
}

// A word, a number and the line feed.
fn lay_numbered(word: &[u8], number: u64, text: &mut [u8], at: usize) -> usize
    requires { at + length (numbered word.now number) ≤ length text.old }
    ensures { (result ≡ at + length (numbered word.now number)) × (text.new ≡ placed at (numbered word.now number) text.old) }
{
    let told = append(word, text, at);
    let end = append_decimal(number, text, told);
    append(b"\n", text, end)
}

fn lay_refused(refusal: Refusal, text: &mut [u8], at: usize) -> usize
    requires { at + 13 ≤ length text.old }
    ensures { (result ≡ at + length (refused_text (number refusal))) × (text.new ≡ placed at (refused_text (number refusal)) text.old) }
{
    lay_numbered(b" refused ", u64::from(u8::from(refusal)), text, at)
}

pub fn line(bits: u64, heard: Heard, text: &mut [u8; ROOM]) -> usize
    ensures { (result ≡ length (line_of bits heard)) × (text.new ≡ placed 0 (line_of bits heard) text.old) }
{
    match heard {
        Heard::Nothing => 0,
        Heard::Accepted(report) => {
            let r = report.record;
            let at = append_decimal(bits, text, 0);
            lay_accepted(r, text, at)
        }
        Heard::Refused(refusal) => {
            let at = append_decimal(bits, text, 0);
            lay_refused(refusal, text, at)
        }
    }
}

pub fn end_line(bits: u64, text: &mut [u8; ROOM]) -> usize
    ensures { (result ≡ length (end_line_of bits)) × (text.new ≡ placed 0 (end_line_of bits) text.old) }
{
    lay_numbered(b"end ", bits, text, 0)
}
