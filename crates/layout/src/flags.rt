// Flags as bits, and what a rate decides of them.
ghost use Rattle.std.specs.Prelude.{◌≡◌, ◌≤◌, ◌^◌};
ghost use Rattle.rates.specs.Rates.{by_rate};
ghost use Rattle.layout.specs.Flags.{flag_of, bit_of, places, unused_colour};

use rates::{Flag, Rate};

pub fn flag(bit: u64) -> Flag
    ensures { result ≡ flag_of bit }
{
    if bit == 0 {
        return Flag::No;
    }
    Flag::Yes
}

pub fn bit(flag: Flag) -> u64
    ensures { (result ≡ bit_of flag) × (result ≤ 1) }
{
    u64::from(u8::from(flag))
}

// One flag at 25 frames, another else: 25 has its own row in the table of flags.
pub fn by_25(rate: Rate, at25: Flag, other: Flag) -> Flag
    ensures { result ≡ by_rate rate other at25 other }
{
    rates::by_rate(rate, other, at25, other)
}

pub fn is_unused_colour(rate: Rate, colour: Flag) -> bool
    ensures { result ≡ unused_colour rate colour }
{
    matches!(rate, Rate::At24) & rates::is_yes(colour)
}

// What a mark adds to the 64 bits.
pub fn mark_value(rate: Rate) -> u64
    ensures { result ≡ 2 ^ (places rate).mark }
{
    rates::by_rate(rate, 0x800_0000, 0x800_0000_0000_0000, 0x800_0000)
}
