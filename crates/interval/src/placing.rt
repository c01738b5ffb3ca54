// The 90 elements into the middle of a lent run.
ghost use Rattle.std.specs.Prelude.{◌≡◌, length};
ghost use Rattle.bits.specs.Bits.{value};
ghost use Rattle.runs.specs.Run.{written_by, run_after, room_refusals};
ghost use Rattle.interval.specs.Line.{crc_of, groups, line_with};

use crate::parity::count_ones;
use refusals::Refusal;

// Eight groups of ten: the pair 1, 0 and eight information bits, low bit first. They are lent by their places: of what `chunks_mut` lent a
// proof knows no element once it is back.
fn write_groups(info: u64, part: &mut [u8])
    requires { length part.old ≡ 80 }
    ensures { part.new ≡ groups 8 info }
{
    let mut left = info;
    for g in 0..8 {
        let start = 10 * g;
        let end = start + 10;
        runs::scatter(1 + 4 * (left % 256), &mut part[start..end]);
        left /= 256;
    }
}

// The CRC that the first 82 elements ask for, as a number of eight bits.
fn crc(front: &[u8]) -> u64
    ensures { result ≡ value (crc_of front.now) }
{
    let mut odds = [0u8; 8];
    count_ones(front, &mut odds);
    let mut number: u64 = 0;
    // By places: with the counts turned by `rotate_left(2)` and gathered by `iter().rev()` a line's write took 127 ns, and 81 so.
    for i in (0..8).rev() {
        number = 2 * number + odds[(82 + i) % 8] as u64;
    }
    number
}

// All 90 elements: the groups, the ninth pair, and the CRC of those 82.
fn write_line(info: u64, line: &mut [u8])
    requires { length line.old ≡ 90 }
    ensures { line.new ≡ line_with info }
{
    write_groups(info, &mut line[0..80]);
    runs::scatter(1, &mut line[80..82]);
    let check = crc(&line[0..82]);
    runs::scatter(check, &mut line[82..90]);
}

pub fn place(info: u64, start: usize, run: &mut [u8]) -> Result<(), Refusal>
    ensures { (result ≡ written_by (room_refusals 90 start run.old))
        × (run.new ≡ run_after (room_refusals 90 start run.old) start (line_with info) run.old) }
{
    if runs::lacks_room(90, start, run.len()) {
        return Err(Refusal::NoRoom);
    }
    let end = start + 90;
    write_line(info, &mut run[start..end]);
    Ok(())
}
