// From pictures to numbers: the number of a picture, of the day and within its second, and the distance from one picture to another.
ghost use Rattle.std.specs.Prelude.{◌≡◌, ◌+◌, ◌^◌, ◌<◌};
ghost use Rattle.round.specs.Round.{distance_of};
ghost use Rattle.pictures.specs.Pictures.{pictures_in_day};
ghost use Rattle.pictures.specs.Calls.{number_of, in_second_of, span_of, number_told};

use crate::judging::{is_place_outside, is_place_unused, judge, judge_two};
use crate::types::{Counting, Picture, PictureInSecond};
use clock::DayFrame;
use rates::{Flag, frames_in_day, is_yes};
use refusals::Refusal;

// The last number of a day; as all of a day's, it is small.
pub fn last_number(counting: Counting, drop: bool) -> u32
    ensures { (result + 1 ≡ pictures_in_day counting.rate (counting.last + 1) drop) × (result < 2 ^ 30) }
{
    (counting.last as u32 + 1) * frames_in_day(counting.rate, drop) - 1
}

// "The lowest that applies is given": 8 of the place is looked at before the address, 10 after it.
pub fn number_of(counting: Counting, drop: Flag, picture: Picture) -> Result<DayFrame, Refusal>
    ensures { result ≡ number_of counting.rate (counting.last + 1) drop picture }
{
    if is_place_outside(counting.last, picture.place) {
        return Err(Refusal::OutsideTheClock);
    }
    let before = clock::number_of(counting.rate, drop, picture.address)?;
    if is_place_unused(counting.last, picture.place) {
        return Err(Refusal::UnusedBitSet);
    }
    let number = (counting.last as u32 + 1) * before.0 + picture.place as u32;
    Ok(DayFrame(number))
}

pub fn number_in_second(
    counting: Counting,
    drop: Flag,
    picture: Picture,
) -> Result<PictureInSecond, Refusal>
    ensures { result ≡ in_second_of counting.rate (counting.last + 1) drop picture }
{
    judge(counting, drop, picture)?;
    let frames = picture.address.frames.0;
    let number = (counting.last as u16 + 1) * frames as u16 + picture.place as u16;
    Ok(PictureInSecond(number))
}

// The number that was told, and 0 where none was.
fn told(numbered: Result<DayFrame, Refusal>) -> u32
    ensures { result ≡ number_told numbered }
{
    match numbered {
        Ok(number) => number.0,
        Err(_) => 0,
    }
}

// The distance between two small numbers fits 32 bits.
fn between(end_of_day: u32, from: u32, to: u32) -> i32
    requires { (end_of_day < 2 ^ 30) × (from < 2 ^ 30) × (to < 2 ^ 30) }
    ensures { result ≡ distance_of (end_of_day + 1) from to }
{
    round::distance(end_of_day, from, to) as i32
}

pub fn distance(counting: Counting, drop: Flag, from: Picture, to: Picture) -> Result<i32, Refusal>
    ensures { result ≡ span_of counting.rate (counting.last + 1) drop from to }
{
    judge_two(counting, drop, from, to)?;
    let end_of_day = last_number(counting, is_yes(drop));
    let start = told(number_of(counting, drop, from));
    let end = told(number_of(counting, drop, to));
    Ok(between(end_of_day, start, end))
}
