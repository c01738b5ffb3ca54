// The CRC's eight counts, each as one bit.
ghost use Rattle.std.specs.Prelude.{◌+◌, ◌%◌, ◌≡◌, cond, eqb, length, get_or};
ghost use Rattle.bits.specs.Bits.{AllBits};
ghost use Rattle.interval.specs.Line.{each, ones_at};

// 1 for a one, and 0 for any other element.
fn one_in(element: u8) -> u8
    ensures { result ≡ cond (eqb element 1) 1 0 }
{
    u8::from(element == 1)
}

// Adds the ones of a part to the eight counts, each to that of the remainder of its place in the part by 8. Of a count only its last bit is
// kept: 1 for odd, 0 for even.
fn add_ones(part: &[u8], odds: &mut [u8; 8])
    requires { (length odds.old ≡ 8) × AllBits odds.old }
    ensures { odds.new ≡ each 8 (λ remainder. (get_or odds.old remainder 0 + ones_at remainder part.now) % 2) }
{
    // By places, and not by a zip with the eight counts, which would end at the eighth element: the promise is for a part of any length.
    for (place, element) in part.iter().enumerate() {
        let one = one_in(*element);
        let remainder = place % 8;
        let odd = odds[remainder];
        odds[remainder] = (odd + one) % 2;
    }
}

// All eight counts of a run in one pass: by parts of eight places, and at the end those that are left. Of a part of eight the compiler makes
// one step for all eight; of a whole run it does not.
pub fn count_ones(run: &[u8], odds: &mut [u8; 8])
    ensures { odds.new ≡ each 8 (λ remainder. ones_at remainder run.now % 2) }
{
    *odds = [0u8; 8];
    let eights = run.chunks_exact(8);
    let rest = eights.remainder();
    for part in eights {
        add_ones(part, odds);
    }
    add_ones(rest, odds);
}
