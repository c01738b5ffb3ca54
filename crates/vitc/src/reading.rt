// From a line to a record.
ghost use Rattle.std.specs.Prelude.{◌≡◌};
ghost use Rattle.interval.specs.Line.{info_in};
ghost use Rattle.vitc.specs.Asked.{BitRun};
ghost use Rattle.vitc.specs.Calls.{read_of};

use modes::Shows;
use record::Record;
use refusals::Refusal;

// The 64 information bits: eight behind the pair of each group of ten, the last group's first.
fn information(line: &[u8]) -> u64
    requires { BitRun 90 line.now }
    ensures { result ≡ info_in line.now }
{
    let mut number: u64 = 0;
    for group in line[..80].rchunks(10) {
        let Ok(byte) = runs::gather(&group[2..]) else {
            unreachable!()
        };
        number = 256 * number + byte;
    }
    number
}

pub fn read(mode: u8, line: &[u8]) -> Result<Record, Refusal>
    ensures { result ≡ read_of mode line.now }
{
    interval::judge(mode, line)?;
    modes::picture_from_bits(mode, Shows::ByMark, information(line))
}
