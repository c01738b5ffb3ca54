// The calls that count, by mode.
ghost use Rattle.std.specs.Prelude.{◌≡◌};
ghost use Rattle.rates.specs.Face.{showing};
ghost use Rattle.pictures.specs.Pictures.{picture};
ghost use Rattle.modes.specs.Calls.{number_in, in_second_in, picture_in, fields_in, span_in, plus_in};

use crate::table::counting_of;
use clock::DayFrame;
use pictures::{Picture, PictureInSecond};
use rates::{Flag, SecondFrame};
use refusals::Refusal;

pub fn number_of(mode: u8, drop: Flag, picture: Picture) -> Result<DayFrame, Refusal>
    ensures { result ≡ number_in mode drop picture }
{
    pictures::number_of(counting_of(mode)?, drop, picture)
}

pub fn number_in_second(mode: u8, drop: Flag, picture: Picture) -> Result<PictureInSecond, Refusal>
    ensures { result ≡ in_second_in mode drop picture }
{
    pictures::number_in_second(counting_of(mode)?, drop, picture)
}

pub fn picture_of(mode: u8, drop: Flag, number: DayFrame) -> Result<Picture, Refusal>
    ensures { result ≡ picture_in mode drop number }
{
    pictures::picture_of(counting_of(mode)?, drop, number)
}

pub fn picture_from(
    mode: u8,
    drop: Flag,
    hours: u8,
    minutes: u8,
    seconds: u8,
    frames: SecondFrame,
    place: u8,
) -> Result<Picture, Refusal>
    ensures { result ≡ fields_in mode drop (picture (showing hours minutes seconds frames.0) place) }
{
    let counting = counting_of(mode)?;
    pictures::picture_from(counting, drop, hours, minutes, seconds, frames, place)
}

pub fn distance(mode: u8, drop: Flag, from: Picture, to: Picture) -> Result<i32, Refusal>
    ensures { result ≡ span_in mode drop from to }
{
    pictures::distance(counting_of(mode)?, drop, from, to)
}

pub fn add(mode: u8, drop: Flag, picture: Picture, pictures: i32) -> Result<Picture, Refusal>
    ensures { result ≡ plus_in mode drop picture pictures }
{
    pictures::add(counting_of(mode)?, drop, picture, pictures)
}
