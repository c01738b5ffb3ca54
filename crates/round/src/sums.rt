// A number plus a signed count, round the day either way.
ghost use Rattle.std.specs.Prelude.{◌≡◌, true, false, ◌+◌, pos, negsuc};
ghost use Rattle.std.specs.Int.Signed.{non_neg};
ghost use Rattle.round.specs.Round.{sum_of};

// A count that is not below 0, and one that is: how far on, and one less than how far back.
fn on_by(frames: i32) -> u32
    requires { non_neg frames ≡ true }
    ensures { frames ≡ pos result }
{
    frames as u32
}

fn back_by(frames: i32) -> u32
    requires { non_neg frames ≡ false }
    ensures { frames ≡ negsuc result }
{
    !frames as u32
}

pub fn sum(last: u32, number: u32, frames: i32) -> u32
    ensures { result ≡ sum_of (last + 1) number frames }
{
    let day = last as u64 + 1;
    let start = number as u64;
    if frames < 0 {
        let less = back_by(frames) as u64;
        let back = (start + (day - (less + 1) % day)) % day;
        return back as u32;
    }
    let count = on_by(frames) as u64;
    let on = (start + count) % day;
    on as u32
}
