// The four counting modes in which two pictures share an address, document 02's A4: each a kind with its own pictures in a second and
// in a day.
//
// An address's frames still end at 23, 24 or 29. It is the pictures of a second that go up to 47, 49 or 59 (`number_in_second` of `pictures` and `modes`).
ghost use Rattle.std.specs.Prelude.{refl};
ghost use Rattle.rates.specs.declared.types.Flag.TheVariants.{No, Yes};
ghost use Rattle.rates.specs.declared.types.Rate.TheVariants.{At24, At25, At30};

use crate::counting::{CountingMode, CountsPictures};
use rates::{Flag, Rate};

#[derive(Clone, Copy)]
pub struct Frames48;

#[derive(Clone, Copy)]
pub struct Frames50;

#[derive(Clone, Copy)]
pub struct Frames60;

#[derive(Clone, Copy)]
pub struct Frames60Drop;

impl CountingMode for Frames48 {
    const RATE: Rate = Rate::At24;

    const DROP: Flag = Flag::No;

    const LAST_PLACE: u8 = 1;

    const IN_SECOND: u32 = 48;

    const IN_DAY: u32 = 4_147_200;

    ghost RATE = { At24 };

    ghost DROP = { No };

    ghost LAST_PLACE = { 1 };

    ghost IN_SECOND = { 48 };

    ghost IN_DAY = { 4_147_200 };

    ghost second_is = { refl };

    ghost day_is = { refl };
}

impl CountsPictures for Frames48 {}

impl CountingMode for Frames50 {
    const RATE: Rate = Rate::At25;

    const DROP: Flag = Flag::No;

    const LAST_PLACE: u8 = 1;

    const IN_SECOND: u32 = 50;

    const IN_DAY: u32 = 4_320_000;

    ghost RATE = { At25 };

    ghost DROP = { No };

    ghost LAST_PLACE = { 1 };

    ghost IN_SECOND = { 50 };

    ghost IN_DAY = { 4_320_000 };

    ghost second_is = { refl };

    ghost day_is = { refl };
}

impl CountsPictures for Frames50 {}

impl CountingMode for Frames60 {
    const RATE: Rate = Rate::At30;

    const DROP: Flag = Flag::No;

    const LAST_PLACE: u8 = 1;

    const IN_SECOND: u32 = 60;

    const IN_DAY: u32 = 5_184_000;

    ghost RATE = { At30 };

    ghost DROP = { No };

    ghost LAST_PLACE = { 1 };

    ghost IN_SECOND = { 60 };

    ghost IN_DAY = { 5_184_000 };

    ghost second_is = { refl };

    ghost day_is = { refl };
}

impl CountsPictures for Frames60 {}

impl CountingMode for Frames60Drop {
    const RATE: Rate = Rate::At30;

    const DROP: Flag = Flag::Yes;

    const LAST_PLACE: u8 = 1;

    const IN_SECOND: u32 = 60; // some seconds begin at 04, and each ends at 59

    const IN_DAY: u32 = 5_178_816;

    ghost RATE = { At30 };

    ghost DROP = { Yes };

    ghost LAST_PLACE = { 1 };

    ghost IN_SECOND = { 60 };

    ghost IN_DAY = { 5_178_816 };

    ghost second_is = { refl };

    ghost day_is = { refl };
}

impl CountsPictures for Frames60Drop {}
