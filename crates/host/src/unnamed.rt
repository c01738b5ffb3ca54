// A byte that stands for nothing is turned away by 3, or by the number that comes before 3.
ghost use Rattle.std.specs.Prelude.{◌≡◌};
ghost use Rattle.host.specs.Unnamed.{after_mode, after_reader};

use refusals::Refusal;
use register::Reader;

pub fn after_mode(unknown: bool) -> Refusal
    ensures { result ≡ after_mode unknown }
{
    if unknown {
        return Refusal::UnknownMode;
    }
    Refusal::ElementTooHigh
}

pub fn after_reader(reader: Reader) -> Refusal
    ensures { result ≡ after_reader reader }
{
    let judged = reader::judge(reader);
    judged.err().unwrap_or(Refusal::ElementTooHigh)
}
