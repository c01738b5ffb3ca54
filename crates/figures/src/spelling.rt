// An address and eight groups as they stand in a line: arrays, and no `Display`, since the two calls promise the characters.
ghost use Rattle.std.specs.Prelude.{◌≡◌, [], ◌∷◌, ◌++◌};
ghost use Rattle.text.specs.Ascii.{space, line_feed};
ghost use Rattle.figures.specs.Figures.{before_frames, address_text, groups_text};

use rates::{Address, Flag, SecondFrame};
use record::{Groups, Record};
use text::hex_digit;

// "colon before the frames when drop is 0"
fn before_frames(drop: Flag) -> u8
    ensures { result ≡ before_frames drop }
{
    match drop {
        Flag::No => b':',
        Flag::Yes => b';',
    }
}

#[tactic(auto, unfolding(crate::specs::Figures::address_text))]
pub fn address_text(r: Record) -> [u8; 12]
    ensures { result ≡ space ∷ address_text r }
{
    let Address {
        hours,
        minutes,
        seconds,
        frames: SecondFrame(frames),
    } = r.address;
    [
        b' ',
        b'0' + hours / 10 % 10,
        b'0' + hours % 10,
        b':',
        b'0' + minutes / 10 % 10,
        b'0' + minutes % 10,
        b':',
        b'0' + seconds / 10 % 10,
        b'0' + seconds % 10,
        before_frames(r.flags.drop),
        b'0' + frames / 10 % 10,
        b'0' + frames % 10,
    ]
}

#[tactic(auto, unfolding(crate::specs::Figures::groups_text))]
pub fn groups_text(g: Groups) -> [u8; 10]
    ensures { result ≡ (space ∷ groups_text g) ++ (line_feed ∷ []) }
{
    [
        b' ',
        hex_digit(g.group1),
        hex_digit(g.group2),
        hex_digit(g.group3),
        hex_digit(g.group4),
        hex_digit(g.group5),
        hex_digit(g.group6),
        hex_digit(g.group7),
        hex_digit(g.group8),
        b'\n',
    ]
}
