// To addresses: the address of a frame number, the address that clock fields make, and an address plus a signed count.
ghost use Rattle.std.specs.Prelude.{◌≡◌, ◌<◌};
ghost use Rattle.rates.specs.Rates.{frames_in_second};
ghost use Rattle.rates.specs.Face.{showing};
ghost use Rattle.clock.specs.Counting.{place_at, address_at};
ghost use Rattle.clock.specs.Calls.{address_of, fields_of, plus_of};

use crate::counting::count;
use crate::types::DayFrame;
use rates::{
    Address, Flag, Rate, SecondFrame, frames_in_day, frames_in_second, is_yes, judge, may_drop,
};
use refusals::Refusal;

// The place of a number on a clock that skips nothing.
fn place(drop: bool, number: DayFrame) -> u32
    requires { number.0 < 2592000 }
    ensures { result ≡ place_at drop number.0 }
{
    let n = number.0;
    if !drop {
        return n;
    }
    let skipped = 18 * (n / 17982);
    let rest = n % 17982;
    if rest < 2 {
        return n + skipped;
    }
    n + (skipped + 2 * ((rest - 2) / 1798))
}

// The address of a number of the day.
fn address_at(rate: Rate, drop: bool, number: DayFrame) -> Address
    requires { number.0 < 2592000 }
    ensures { result ≡ address_at (frames_in_second rate) drop number.0 }
{
    let fps = frames_in_second(rate);
    let place = place(drop, number);
    let second = place / fps;
    let minute = second / 60;
    let frames = (place % fps) as u8;
    let seconds = (second % 60) as u8;
    let minutes = (minute % 60) as u8;
    let hours = (minute / 60) as u8;
    Address {
        hours,
        minutes,
        seconds,
        frames: SecondFrame(frames),
    }
}

pub fn address_of(rate: Rate, drop: Flag, number: DayFrame) -> Result<Address, Refusal>
    ensures { result ≡ address_of rate drop number }
{
    let dropped = is_yes(drop);
    let unused = dropped & !may_drop(rate);
    if unused {
        return Err(Refusal::UnusedBitSet);
    }
    if frames_in_day(rate, dropped) <= number.0 {
        return Err(Refusal::NumberPastTheDay);
    }
    Ok(address_at(rate, dropped, number))
}

pub fn address_from(
    rate: Rate,
    drop: Flag,
    hours: u8,
    minutes: u8,
    seconds: u8,
    frames: SecondFrame,
) -> Result<Address, Refusal>
    ensures { result ≡ fields_of rate drop (showing hours minutes seconds frames.0) }
{
    let fields = Address {
        hours,
        minutes,
        seconds,
        frames,
    };
    judge(rate, drop, fields, false, false)?;
    Ok(fields)
}

pub fn add(rate: Rate, drop: Flag, address: Address, frames: i32) -> Result<Address, Refusal>
    ensures { result ≡ plus_of rate drop address frames }
{
    judge(rate, drop, address, false, false)?;
    let dropped = is_yes(drop);
    let last = frames_in_day(rate, dropped) - 1;
    let start = count(rate, dropped, address);
    let number = DayFrame(round::sum(last, start.0, frames));
    Ok(address_at(rate, dropped, number))
}
