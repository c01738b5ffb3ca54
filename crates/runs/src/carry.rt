// "Lent bits stand one to an element, 0 or 1", low bit first.
ghost use Rattle.std.specs.Prelude.{◌≡◌, length};
ghost use Rattle.bits.specs.Bits.{to_bits};
ghost use Rattle.runs.specs.Gather.{gathered_of};

use crate::types::NoNumber;

// The number that a run of at most 64 bits stands for.
pub fn gather(run: &[u8]) -> Result<u64, NoNumber>
    ensures { result ≡ gathered_of run.now }
{
    if 64 < run.len() {
        return Err(NoNumber::TooLong);
    }
    let mut number: u64 = 0;
    for bit in run.iter().rev() {
        if 1 < *bit {
            return Err(NoNumber::NoBit);
        }
        number = 2 * number + *bit as u64;
    }
    Ok(number)
}

// The low bits of a number, as many as the run has elements.
pub fn scatter(number: u64, run: &mut [u8])
    ensures { run.new ≡ to_bits (length run.old) number }
{
    let mut left = number;
    for bit in run.iter_mut() {
        *bit = (left % 2) as u8;
        left /= 2;
    }
}
