// The arithmetic of the day: an address's frame number, which the calls give out once the address has been found sound.
ghost use Rattle.std.specs.Prelude.{◌≡◌};
ghost use Rattle.rates.specs.Rates.{frames_in_second};
ghost use Rattle.clock.specs.Counting.{count_of};

use crate::types::DayFrame;
use rates::{Address, Rate, frames_in_second};

// The frame number of an address: its place on a clock that skips nothing, less two for each minute begun but every tenth.
pub fn count(rate: Rate, drop: bool, a: Address) -> DayFrame
    ensures { result.0 ≡ count_of (frames_in_second rate) drop a }
{
    let fps = frames_in_second(rate);
    let hours = a.hours as u32;
    let minutes = a.minutes as u32;
    let seconds = a.seconds as u32;
    let frames = a.frames.0 as u32;
    let begun = 60 * hours + minutes;
    let place = (60 * begun + seconds) * fps + frames;
    if drop {
        let number = place - 2 * (begun - begun / 10);
        return DayFrame(number);
    }
    DayFrame(place)
}
