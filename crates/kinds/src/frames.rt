// The four counting modes of document 01: each a kind with its own frames in a second and in a day.
ghost use Rattle.std.specs.Prelude.{refl};
ghost use Rattle.rates.specs.declared.types.Flag.TheVariants.{No, Yes};
ghost use Rattle.rates.specs.declared.types.Rate.TheVariants.{At24, At25, At30};

use crate::counting::{CountingMode, CountsAddresses};
use rates::{Flag, Rate};

#[derive(Clone, Copy)]
pub struct Frames24;

#[derive(Clone, Copy)]
pub struct Frames25;

#[derive(Clone, Copy)]
pub struct Frames30;

#[derive(Clone, Copy)]
pub struct Frames30Drop;

impl CountingMode for Frames24 {
    const RATE: Rate = Rate::At24;

    const DROP: Flag = Flag::No;

    const LAST_PLACE: u8 = 0;

    const IN_SECOND: u32 = 24;

    const IN_DAY: u32 = 2_073_600;

    ghost RATE = { At24 };

    ghost DROP = { No };

    ghost LAST_PLACE = { 0 };

    ghost IN_SECOND = { 24 };

    ghost IN_DAY = { 2_073_600 };

    ghost second_is = { refl };

    ghost day_is = { refl };
}

impl CountsAddresses for Frames24 {
    ghost alone = { refl };
}

impl CountingMode for Frames25 {
    const RATE: Rate = Rate::At25;

    const DROP: Flag = Flag::No;

    const LAST_PLACE: u8 = 0;

    const IN_SECOND: u32 = 25;

    const IN_DAY: u32 = 2_160_000;

    ghost RATE = { At25 };

    ghost DROP = { No };

    ghost LAST_PLACE = { 0 };

    ghost IN_SECOND = { 25 };

    ghost IN_DAY = { 2_160_000 };

    ghost second_is = { refl };

    ghost day_is = { refl };
}

impl CountsAddresses for Frames25 {
    ghost alone = { refl };
}

impl CountingMode for Frames30 {
    const RATE: Rate = Rate::At30;

    const DROP: Flag = Flag::No;

    const LAST_PLACE: u8 = 0;

    const IN_SECOND: u32 = 30;

    const IN_DAY: u32 = 2_592_000;

    ghost RATE = { At30 };

    ghost DROP = { No };

    ghost LAST_PLACE = { 0 };

    ghost IN_SECOND = { 30 };

    ghost IN_DAY = { 2_592_000 };

    ghost second_is = { refl };

    ghost day_is = { refl };
}

impl CountsAddresses for Frames30 {
    ghost alone = { refl };
}

impl CountingMode for Frames30Drop {
    const RATE: Rate = Rate::At30;

    const DROP: Flag = Flag::Yes;

    const LAST_PLACE: u8 = 0;

    const IN_SECOND: u32 = 30; // some seconds begin at 02, and each ends at 29

    const IN_DAY: u32 = 2_589_408;

    ghost RATE = { At30 };

    ghost DROP = { Yes };

    ghost LAST_PLACE = { 0 };

    ghost IN_SECOND = { 30 };

    ghost IN_DAY = { 2_589_408 };

    ghost second_is = { refl };

    ghost day_is = { refl };
}

impl CountsAddresses for Frames30Drop {
    ghost alone = { refl };
}
