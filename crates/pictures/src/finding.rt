// To pictures: the picture of a number, the picture that clock fields and a place make, and a picture plus a signed count.
ghost use Rattle.std.specs.Prelude.{◌≡◌, ◌+◌};
ghost use Rattle.rates.specs.Face.{showing};
ghost use Rattle.pictures.specs.Pictures.{picture};
ghost use Rattle.pictures.specs.Calls.{picture_of, fields_of, plus_of};

use crate::judging::judge;
use crate::numbers::{last_number, number_of};
use crate::types::{Counting, Picture};
use clock::DayFrame;
use rates::{Address, Flag, SecondFrame, is_yes};
use refusals::Refusal;

pub fn picture_of(counting: Counting, drop: Flag, number: DayFrame) -> Result<Picture, Refusal>
    ensures { result ≡ picture_of counting.rate (counting.last + 1) drop number }
{
    let pictures = counting.last as u32 + 1;
    let place = (number.0 % pictures) as u8;
    let address = clock::address_of(counting.rate, drop, DayFrame(number.0 / pictures))?;
    Ok(Picture { address, place })
}

pub fn picture_from(
    counting: Counting,
    drop: Flag,
    hours: u8,
    minutes: u8,
    seconds: u8,
    frames: SecondFrame,
    place: u8,
) -> Result<Picture, Refusal>
    ensures { result ≡ fields_of counting.rate (counting.last + 1) drop (picture (showing hours minutes seconds frames.0) place) }
{
    let address = Address {
        hours,
        minutes,
        seconds,
        frames,
    };
    let fields = Picture { address, place };
    judge(counting, drop, fields)?;
    Ok(fields)
}

pub fn add(
    counting: Counting,
    drop: Flag,
    picture: Picture,
    pictures: i32,
) -> Result<Picture, Refusal>
    ensures { result ≡ plus_of counting.rate (counting.last + 1) drop picture pictures }
{
    let start = number_of(counting, drop, picture)?;
    let end_of_day = last_number(counting, is_yes(drop));
    let number = DayFrame(round::sum(end_of_day, start.0, pictures));
    picture_of(counting, drop, number)
}
