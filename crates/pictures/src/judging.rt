// Which pictures are turned away: for their address, as the rate turns it away, or for their place.
ghost use Rattle.std.specs.Prelude.{◌≡◌, ◌+◌};
ghost use Rattle.refusals.specs.Answer.{verdict_of};
ghost use Rattle.pictures.specs.Pictures.{place_outside, place_unused};
ghost use Rattle.pictures.specs.Calls.{picture_refusals, two_refusals};

use crate::types::{Counting, Picture};
use rates::Flag;
use refusals::Refusal;

pub fn is_place_outside(last: u8, place: u8) -> bool
    ensures { result ≡ place_outside (last + 1) place }
{
    let pictures = last as u32 + 1;
    1 < pictures && pictures <= place as u32
}

pub fn is_place_unused(last: u8, place: u8) -> bool
    ensures { result ≡ place_unused (last + 1) place }
{
    let pictures = last as u32 + 1;
    pictures <= 1 && 0 < place
}

pub fn judge(counting: Counting, drop: Flag, p: Picture) -> Result<(), Refusal>
    ensures { result ≡ verdict_of (picture_refusals counting.rate (counting.last + 1) drop p) }
{
    let out = is_place_outside(counting.last, p.place);
    let unused = is_place_unused(counting.last, p.place);
    rates::judge(counting.rate, drop, p.address, out, unused)
}

pub fn judge_two(counting: Counting, drop: Flag, p: Picture, q: Picture) -> Result<(), Refusal>
    ensures { result ≡ verdict_of (two_refusals counting.rate (counting.last + 1) drop p q) }
{
    let Counting { rate, last } = counting;
    let out = is_place_outside(last, p.place) | is_place_outside(last, q.place);
    let unused = is_place_unused(last, p.place) | is_place_unused(last, q.place);
    rates::judge_two(rate, drop, p.address, q.address, out, unused)
}
