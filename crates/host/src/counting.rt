// The calls that count, in modes 0 to 10.
ghost use Rattle.std.specs.Prelude.{◌≡◌, cond, Ok, Err};
ghost use Rattle.layout.specs.Flags.{flag_of};
ghost use Rattle.modes.specs.Modes.{uncounted};
ghost use Rattle.plain.specs.Given.{no_flag};
ghost use Rattle.host.specs.Unnamed.{after_mode as after_mode_of};
ghost use Rattle.host.specs.Counting.{number_for, in_second_for, picture_for, distance_for, add_for};

use crate::unnamed::after_mode;
use clock::DayFrame;
use modes::is_uncounted;
use plain::{
    DistanceAnswer, NumberAnswer, PictureAnswer, PlainPicture, SecondAnswer, flag_given, is_no_flag,
};
use rates::Flag;
use refusals::Refusal;

// A byte that is no flag is turned away before anything is counted.
fn drop_given(mode: u8, drop: u8) -> Result<Flag, Refusal>
    ensures { result ≡ cond (no_flag drop) (Err (after_mode_of (uncounted mode))) (Ok (flag_of drop)) }
{
    if is_no_flag(drop) {
        return Err(after_mode(is_uncounted(mode)));
    }
    Ok(flag_given(drop))
}

#[unsafe(no_mangle)]
pub extern "C" fn shx_number(mode: u8, drop: u8, picture: PlainPicture) -> NumberAnswer
    ensures { result ≡ number_for mode drop picture }
{
    drop_given(mode, drop)
        .and_then(|flag| modes::number_of(mode, flag, picture.into()))
        .into()
}

#[unsafe(no_mangle)]
pub extern "C" fn shx_number_in_second(mode: u8, drop: u8, picture: PlainPicture) -> SecondAnswer
    ensures { result ≡ in_second_for mode drop picture }
{
    drop_given(mode, drop)
        .and_then(|flag| modes::number_in_second(mode, flag, picture.into()))
        .into()
}

#[unsafe(no_mangle)]
pub extern "C" fn shx_picture(mode: u8, drop: u8, number: u32) -> PictureAnswer
    ensures { result ≡ picture_for mode drop number }
{
    drop_given(mode, drop)
        .and_then(|flag| modes::picture_of(mode, flag, DayFrame(number)))
        .into()
}

#[unsafe(no_mangle)]
pub extern "C" fn shx_distance(
    mode: u8,
    drop: u8,
    from: PlainPicture,
    to: PlainPicture,
) -> DistanceAnswer
    ensures { result ≡ distance_for mode drop from to }
{
    drop_given(mode, drop)
        .and_then(|flag| modes::distance(mode, flag, from.into(), to.into()))
        .into()
}

#[unsafe(no_mangle)]
pub extern "C" fn shx_add(mode: u8, drop: u8, picture: PlainPicture, pictures: i32) -> PictureAnswer
    ensures { result ≡ add_for mode drop picture pictures }
{
    drop_given(mode, drop)
        .and_then(|flag| modes::add(mode, flag, picture.into(), pictures))
        .into()
}
