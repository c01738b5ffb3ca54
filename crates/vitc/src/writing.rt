// From a record to a line in the middle of a lent run.
ghost use Rattle.std.specs.Prelude.{◌≡◌};
ghost use Rattle.vitc.specs.Calls.{written_of, run_of};

use modes::Shows;
use record::Record;
use refusals::Refusal;

pub fn write(mode: u8, r: Record, start: usize, run: &mut [u8]) -> Result<(), Refusal>
    ensures { (result ≡ written_of mode r start run.old) × (run.new ≡ run_of mode r start run.old) }
{
    let info = modes::picture_to_bits(mode, Shows::ByMark, r)?;
    interval::place(info, start, run)
}
