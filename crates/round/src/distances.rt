// From one number to another, brought nearer by a day where that is more than half a day off.
ghost use Rattle.std.specs.Prelude.{◌≡◌, ◌+◌, ◌^◌, ◌<◌};
ghost use Rattle.std.proofs.Math.IntN.{sub_ℕ};
ghost use Rattle.round.specs.Round.{distance_of};

// One number less another.
fn difference(a: u64, b: u64) -> i64
    requires { (a < 2 ^ 63) × (b < 2 ^ 63) }
    ensures { result ≡ sub_ℕ a b }
{
    if a < b {
        let less = b - (a + 1);
        !(less as i64)
    } else {
        (a - b) as i64
    }
}

pub fn distance(last: u32, from: u32, to: u32) -> i64
    ensures { result ≡ distance_of (last + 1) from to }
{
    let day = last as u64 + 1;
    let half = day / 2;
    let start = from as u64;
    let end = to as u64;
    if end + half < start {
        return difference(end + day, start);
    }
    if start + half <= end {
        return difference(end, start + day);
    }
    difference(end, start)
}
