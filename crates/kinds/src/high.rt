// The counting modes of high frame rates, document 02's A6: each a kind with its own pictures in a second and in a day, and the
// place of the last picture that shares an address.
//
// An address is a super-frame, and its frames still end at 23, 24 or 29. It is the pictures of a second that go up to 71, 95, 99 or 119.
ghost use Rattle.std.specs.Prelude.{refl};
ghost use Rattle.rates.specs.declared.types.Flag.TheVariants.{No, Yes};
ghost use Rattle.rates.specs.declared.types.Rate.TheVariants.{At24, At25, At30};

use crate::counting::{CountingMode, CountsPictures};
use rates::{Flag, Rate};

#[derive(Clone, Copy)]
pub struct Frames72;

#[derive(Clone, Copy)]
pub struct Frames96;

#[derive(Clone, Copy)]
pub struct Frames100;

#[derive(Clone, Copy)]
pub struct Frames120As24x5;

#[derive(Clone, Copy)]
pub struct Frames120As30x4;

#[derive(Clone, Copy)]
pub struct Frames120Drop;

impl CountingMode for Frames72 {
    const RATE: Rate = Rate::At24;

    const DROP: Flag = Flag::No;

    const LAST_PLACE: u8 = 2;

    const IN_SECOND: u32 = 72;

    const IN_DAY: u32 = 6_220_800;

    ghost RATE = { At24 };

    ghost DROP = { No };

    ghost LAST_PLACE = { 2 };

    ghost IN_SECOND = { 72 };

    ghost IN_DAY = { 6_220_800 };

    ghost second_is = { refl };

    ghost day_is = { refl };
}

impl CountsPictures for Frames72 {}

impl CountingMode for Frames96 {
    const RATE: Rate = Rate::At24;

    const DROP: Flag = Flag::No;

    const LAST_PLACE: u8 = 3;

    const IN_SECOND: u32 = 96;

    const IN_DAY: u32 = 8_294_400;

    ghost RATE = { At24 };

    ghost DROP = { No };

    ghost LAST_PLACE = { 3 };

    ghost IN_SECOND = { 96 };

    ghost IN_DAY = { 8_294_400 };

    ghost second_is = { refl };

    ghost day_is = { refl };
}

impl CountsPictures for Frames96 {}

impl CountingMode for Frames100 {
    const RATE: Rate = Rate::At25;

    const DROP: Flag = Flag::No;

    const LAST_PLACE: u8 = 3;

    const IN_SECOND: u32 = 100;

    const IN_DAY: u32 = 8_640_000;

    ghost RATE = { At25 };

    ghost DROP = { No };

    ghost LAST_PLACE = { 3 };

    ghost IN_SECOND = { 100 };

    ghost IN_DAY = { 8_640_000 };

    ghost second_is = { refl };

    ghost day_is = { refl };
}

impl CountsPictures for Frames100 {}

impl CountingMode for Frames120As24x5 {
    const RATE: Rate = Rate::At24;

    const DROP: Flag = Flag::No;

    const LAST_PLACE: u8 = 4;

    const IN_SECOND: u32 = 120;

    const IN_DAY: u32 = 10_368_000;

    ghost RATE = { At24 };

    ghost DROP = { No };

    ghost LAST_PLACE = { 4 };

    ghost IN_SECOND = { 120 };

    ghost IN_DAY = { 10_368_000 };

    ghost second_is = { refl };

    ghost day_is = { refl };
}

impl CountsPictures for Frames120As24x5 {}

impl CountingMode for Frames120As30x4 {
    const RATE: Rate = Rate::At30;

    const DROP: Flag = Flag::No;

    const LAST_PLACE: u8 = 3;

    const IN_SECOND: u32 = 120;

    const IN_DAY: u32 = 10_368_000;

    ghost RATE = { At30 };

    ghost DROP = { No };

    ghost LAST_PLACE = { 3 };

    ghost IN_SECOND = { 120 };

    ghost IN_DAY = { 10_368_000 };

    ghost second_is = { refl };

    ghost day_is = { refl };
}

impl CountsPictures for Frames120As30x4 {}

impl CountingMode for Frames120Drop {
    const RATE: Rate = Rate::At30;

    const DROP: Flag = Flag::Yes;

    const LAST_PLACE: u8 = 3;

    const IN_SECOND: u32 = 120; // some seconds begin at 08, and each ends at 119

    const IN_DAY: u32 = 10_357_632;

    ghost RATE = { At30 };

    ghost DROP = { Yes };

    ghost LAST_PLACE = { 3 };

    ghost IN_SECOND = { 120 };

    ghost IN_DAY = { 10_357_632 };

    ghost second_is = { refl };

    ghost day_is = { refl };
}

impl CountsPictures for Frames120Drop {}
