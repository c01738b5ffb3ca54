// From record, type and second byte to 23 words.
ghost use Rattle.std.specs.Prelude.{◌≡◌};
ghost use Rattle.atc.specs.Calls.{written_of, run_of};

use crate::payload;
use crate::types::Interface;
use record::Record;
use refusals::Refusal;

pub fn write(
    mode: u8,
    interface: Interface,
    r: Record,
    payload_type: u8,
    second: u8,
    start: usize,
    run: &mut [u16],
) -> Result<(), Refusal>
    ensures { (result ≡ written_of mode interface r payload_type second start run.old)
        × (run.new ≡ run_of mode interface r payload_type second start run.old) }
{
    modes::counting_of(mode)?;
    payload::judge(mode, interface, payload_type, second)?;
    let info = payload::bits_of(mode, payload_type, r)?;
    packets::place(mode, info, payload_type, second, start, run)
}
