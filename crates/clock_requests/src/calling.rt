// The calls of the clock by mode, and the constructors of its kinds.
ghost use Rattle.std.specs.Prelude.{◌≡◌, true, IfSome};
ghost use Rattle.clock_requests.specs.Telling.{number_told, span_told, picture_told, may_tell};

use crate::types::{Call, Given, Told};
use kinds::{
    CountsAddresses, CountsPictures, Frames24, Frames25, Frames30, Frames30Drop, Frames48,
    Frames50, Frames60, Frames60Drop, Frames72, Frames96, Frames100, Frames120As24x5,
    Frames120As30x4, Frames120Drop,
};
use pictures::Picture;
use rates::{Address, Flag};
use refusals::Refusal;
use requests::{Field, Fields};

// `MODE DROP H M S F P`, and nothing after it.
fn last_picture(mut fields: Fields) -> Option<(u8, Flag, Picture)> {
    let mode = fields.byte()?;
    let drop = fields.flag()?;
    let picture = fields.picture()?;
    fields.end()?;
    Some((mode, drop, picture))
}

fn number_for(fields: Fields) -> Option<Result<Told, Refusal>>
    ensures { IfSome result (λ told. number_told told ≡ true) }
{
    let (mode, drop, picture) = last_picture(fields)?;
    let numbered = modes::number_of(mode, drop, picture);
    Some(numbered.map(|frame| Told::Number(u64::from(frame.0))))
}

fn in_second_for(fields: Fields) -> Option<Result<Told, Refusal>>
    ensures { IfSome result (λ told. number_told told ≡ true) }
{
    let (mode, drop, picture) = last_picture(fields)?;
    let counted = modes::number_in_second(mode, drop, picture);
    Some(counted.map(|number| Told::Number(u64::from(number.0))))
}

fn distance_for(mut fields: Fields) -> Option<Result<Told, Refusal>>
    ensures { IfSome result (λ told. span_told told ≡ true) }
{
    let mode = fields.byte()?;
    let drop = fields.flag()?;
    let from = fields.picture()?;
    let to = fields.picture()?;
    fields.end()?;
    let measured = modes::distance(mode, drop, from, to);
    Some(measured.map(|frames| Told::Frames(frames)))
}

fn address_for(mut fields: Fields) -> Option<Result<Picture, Refusal>> {
    let mode = fields.byte()?;
    let drop = fields.flag()?;
    let number = fields.day_frame()?;
    fields.end()?;
    Some(modes::picture_of(mode, drop, number))
}

fn sum_for(mut fields: Fields) -> Option<Result<Picture, Refusal>> {
    let mode = fields.byte()?;
    let drop = fields.flag()?;
    let picture = fields.picture()?;
    let count = fields.count()?;
    fields.end()?;
    Some(modes::add(mode, drop, picture, count))
}

fn fields_for(fields: Fields) -> Option<Result<Picture, Refusal>> {
    let (mode, drop, picture) = last_picture(fields)?;
    let Picture { address, place } = picture;
    Some(modes::picture_from(
        mode,
        drop,
        address.hours,
        address.minutes,
        address.seconds,
        address.frames,
        place,
    ))
}

// `KIND N`.
fn number_given(mut fields: Fields, kinds: Field) -> Option<(u64, Given)> {
    let kind = fields.number(kinds)?;
    let number = fields.day_frame()?;
    fields.end()?;
    Some((kind, Given::Number(number)))
}

// `KIND H M S F`.
fn address_given(mut fields: Fields) -> Option<(u64, Given)> {
    let kind = fields.number(Field::Kind)?;
    let address = fields.address()?;
    fields.end()?;
    Some((kind, Given::Fields(Picture { address, place: 0 })))
}

// `KIND H M S F P`.
fn picture_given(mut fields: Fields, kinds: Field) -> Option<(u64, Given)> {
    let kind = fields.number(kinds)?;
    let picture = fields.picture()?;
    fields.end()?;
    Some((kind, Given::Fields(picture)))
}

// Beside `picture_in`, since a kind that counts addresses takes no place and gives none.
fn address_in<K: CountsAddresses>(given: Given) -> Result<Address, Refusal> {
    match given {
        Given::Number(number) => K::from_number(number),
        Given::Fields(Picture { address, .. }) => {
            K::from_fields(
                address.hours,
                address.minutes,
                address.seconds,
                address.frames,
            )
        }
    }
}

fn picture_in<K: CountsPictures>(given: Given) -> Result<Picture, Refusal> {
    match given {
        Given::Number(number) => K::from_number(number),
        Given::Fields(Picture { address, place }) => K::from_fields(
            address.hours,
            address.minutes,
            address.seconds,
            address.frames,
            place,
        ),
    }
}

fn kind_for((kind, given): (u64, Given)) -> Result<Address, Refusal> {
    match kind {
        0 => address_in::<Frames24>(given),
        1 => address_in::<Frames25>(given),
        2 => address_in::<Frames30>(given),
        _ => address_in::<Frames30Drop>(given),
    }
}

fn pair_for((kind, given): (u64, Given)) -> Result<Picture, Refusal> {
    match kind {
        0 => picture_in::<Frames48>(given),
        1 => picture_in::<Frames50>(given),
        2 => picture_in::<Frames60>(given),
        _ => picture_in::<Frames60Drop>(given),
    }
}

fn high_for((kind, given): (u64, Given)) -> Result<Picture, Refusal> {
    match kind {
        0 => picture_in::<Frames72>(given),
        1 => picture_in::<Frames96>(given),
        2 => picture_in::<Frames100>(given),
        3 => picture_in::<Frames120As24x5>(given),
        4 => picture_in::<Frames120As30x4>(given),
        _ => picture_in::<Frames120Drop>(given),
    }
}

// An address that a picture has to itself: its place is 0.
fn address_told(placed: Result<Address, Refusal>) -> Result<Told, Refusal>
    ensures { picture_told result ≡ true }
{
    let address = placed?;
    Ok(Told::At(Picture { address, place: 0 }))
}

fn picture_told(pictured: Result<Picture, Refusal>) -> Result<Told, Refusal>
    ensures { picture_told result ≡ true }
{
    let picture = pictured?;
    Ok(Told::At(picture))
}

pub fn told_for(call: Call, fields: Fields) -> Option<Result<Told, Refusal>>
    ensures { IfSome result (λ told. may_tell call told ≡ true) }
{
    match call {
        Call::Number => number_for(fields),
        Call::InSecond => in_second_for(fields),
        Call::Address => Some(picture_told(address_for(fields)?)),
        Call::Distance => distance_for(fields),
        Call::Add => Some(picture_told(sum_for(fields)?)),
        Call::Fields => Some(picture_told(fields_for(fields)?)),
        Call::KindNumber => Some(address_told(kind_for(number_given(fields, Field::Kind)?))),
        Call::KindFields => Some(address_told(kind_for(address_given(fields)?))),
        Call::PairNumber => Some(picture_told(pair_for(number_given(fields, Field::Kind)?))),
        Call::PairFields => Some(picture_told(pair_for(picture_given(fields, Field::Kind)?))),
        Call::HighNumber => Some(picture_told(high_for(number_given(fields, Field::HighKind)?))),
        Call::HighFields => Some(picture_told(high_for(picture_given(fields, Field::HighKind)?))),
    }
}
