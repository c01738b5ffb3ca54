// Each counting mode is a kind with its own constants. What they have to do with one another is the trait's law, which each kind proves, and
// the constructors, from a number of the day and from clock fields, are the same at each kind but for its constants.
ghost use Rattle.std.specs.Prelude.{ℕ, ◌≡◌, ◌+◌, ◌*◌};
ghost use Rattle.rates.specs.declared.types.Flag.{Flag};
ghost use Rattle.rates.specs.declared.types.Rate.{Rate};
ghost use Rattle.rates.specs.Rates.{is_yes, frames_in_second};
ghost use Rattle.rates.specs.Face.{showing};
ghost use Rattle.clock.specs.Calls.{address_of, fields_of as fields_of_address};
ghost use Rattle.pictures.specs.Pictures.{picture, pictures_in_day};
ghost use Rattle.pictures.specs.Calls.{picture_of, fields_of};

use clock::{DayFrame, address_from, address_of};
use pictures::{Counting, Picture, picture_from, picture_of};
use rates::{Address, Flag, Rate, SecondFrame};
use refusals::Refusal;

// What a kind fixes. Where several pictures share an address, it is pictures that a second and a day have so many of.
pub trait CountingMode {
    const RATE: Rate;

    const DROP: Flag;

    // The place of the last picture that shares an address: 0 where each picture has an address to itself.
    const LAST_PLACE: u8;

    const IN_SECOND: u32;

    const IN_DAY: u32;

    ghost RATE: { Rate };

    ghost DROP: { Flag };

    ghost LAST_PLACE: { ℕ };

    ghost IN_SECOND: { ℕ };

    ghost IN_DAY: { ℕ };

    ghost second_is: { IN_SECOND ≡ (LAST_PLACE + 1) * frames_in_second RATE };

    ghost day_is: { IN_DAY ≡ pictures_in_day RATE (LAST_PLACE + 1) (is_yes DROP) };
}

// A kind that counts addresses, each of them one picture's.
pub trait CountsAddresses: CountingMode {
    final fn from_number(number: DayFrame) -> Result<Address, Refusal>
        ensures { result ≡ address_of Self.RATE Self.DROP number }
    {
        address_of(Self::RATE, Self::DROP, number)
    }

    final fn from_fields(
        hours: u8,
        minutes: u8,
        seconds: u8,
        frames: SecondFrame,
    ) -> Result<Address, Refusal>
        ensures { result ≡ fields_of_address Self.RATE Self.DROP (showing hours minutes seconds frames.0) }
    {
        address_from(Self::RATE, Self::DROP, hours, minutes, seconds, frames)
    }

    ghost alone: { Self.LAST_PLACE ≡ 0 };
}

// A kind of pictures that share an address.
pub trait CountsPictures: CountingMode {
    final fn from_number(number: DayFrame) -> Result<Picture, Refusal>
        ensures { result ≡ picture_of Self.RATE (Self.LAST_PLACE + 1) Self.DROP number }
    {
        let counting = Counting {
            rate: Self::RATE,
            last: Self::LAST_PLACE,
        };
        picture_of(counting, Self::DROP, number)
    }

    final fn from_fields(
        hours: u8,
        minutes: u8,
        seconds: u8,
        frames: SecondFrame,
        place: u8,
    ) -> Result<Picture, Refusal>
        ensures { result ≡ fields_of Self.RATE (Self.LAST_PLACE + 1) Self.DROP (picture (showing hours minutes seconds frames.0) place) }
    {
        let counting = Counting {
            rate: Self::RATE,
            last: Self::LAST_PLACE,
        };
        picture_from(counting, Self::DROP, hours, minutes, seconds, frames, place)
    }
}
