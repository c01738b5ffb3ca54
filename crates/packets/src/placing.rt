// The 23 words into the middle of a lent run.
ghost use Rattle.std.specs.Prelude.{◌≡◌, length};
ghost use Rattle.runs.specs.Run.{written_by, run_after};
ghost use Rattle.packets.specs.Packet.{header, packet_with};
ghost use Rattle.packets.specs.Calls.{place_refusals};

use crate::form::fifth_word;
use refusals::Refusal;

// The first six words, in a mode.
fn store_header(mode: u8, run: &mut [u16])
    requires { length run.old ≡ 6 }
    ensures { run.new ≡ header mode }
{
    run.copy_from_slice(&[0x000, 0x3FF, 0x3FF, 0x260, fifth_word(mode), 0x110]);
}

// The whole packet into a run of its own length.
fn store(mode: u8, info: u64, payload_type: u8, second: u8, run: &mut [u16])
    requires { length run.old ≡ 23 }
    ensures { run.new ≡ packet_with mode info payload_type second }
{
    store_header(mode, &mut run[0..6]);
    let carried = payload_type as u16 + 256 * second as u16;
    words::store_data(info, carried, &mut run[6..22]);
    let sum = words::checksum(&run[3..22]);
    run[22] = sum;
}

pub fn place(
    mode: u8,
    info: u64,
    payload_type: u8,
    second: u8,
    start: usize,
    run: &mut [u16],
) -> Result<(), Refusal>
    ensures { (result ≡ written_by (place_refusals mode start run.old))
        × (run.new ≡ run_after (place_refusals mode start run.old) start (packet_with mode info payload_type second) run.old) }
{
    modes::counting_of(mode)?;
    if runs::lacks_room(23, start, run.len()) {
        return Err(Refusal::NoRoom);
    }
    let end = start + 23;
    store(mode, info, payload_type, second, &mut run[start..end]);
    Ok(())
}
