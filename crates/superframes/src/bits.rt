// Sub-frame bits and a place. Sub-frame 1 stands where the mark does, 2 where the colour flag does, 3 where BGF0 does.
ghost use Rattle.std.specs.Prelude.{◌≡◌, ◌+◌};
ghost use Rattle.superframes.specs.SubFrames.{two_bits, place_said, three_for, other_set, flag_besides_drop};

use layout::bit;
use rates::{Flag, is_yes};
use record::Flags;

// Whether two sub-frame bits are enough for the places of a super-frame.
fn has_two_bits(last: u8) -> bool
    ensures { result ≡ two_bits (last + 1) }
{
    let pictures = last as u32 + 1;
    pictures <= 4
}

pub fn place_said(last: u8, first: Flag, second: Flag, third: Flag) -> u8
    ensures { result ≡ place_said (last + 1) first second third }
{
    let three = 4 * bit(first) + (2 * bit(second) + bit(third));
    if has_two_bits(last) {
        return (three / 2) as u8;
    }
    three as u8
}

pub fn three_for(last: u8, place: u8) -> u64
    ensures { result ≡ three_for (last + 1) place }
{
    if has_two_bits(last) {
        return 2 * place as u64;
    }
    place as u64
}

// Sub-frame bits that the mode does not use.
pub fn has_other_set(last: u8, flags: Flags) -> bool
    ensures { result ≡ other_set (last + 1) flags }
{
    has_two_bits(last) && is_yes(flags.bgf0) || is_yes(flags.bgf1) || is_yes(flags.bgf2)
}

pub fn has_flag_besides_drop(flags: Flags) -> bool
    ensures { result ≡ flag_besides_drop flags }
{
    is_yes(flags.colour)
        || is_yes(flags.mark)
        || is_yes(flags.bgf0)
        || is_yes(flags.bgf1)
        || is_yes(flags.bgf2)
}
