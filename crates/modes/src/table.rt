// The table of modes.
ghost use Rattle.std.specs.Prelude.{◌≡◌, ◌+◌};
ghost use Rattle.modes.specs.Modes.{rate_at, pictures_at, unknown, uncounted, high_rate, counting_of, rated_of, high_row_of};

use pictures::Counting;
use rates::Rate;
use refusals::Refusal;

// How many modes the linear track and the interval line know: the first number that is unknown to them.
const ON_LINES: u8 = 6;

// How many modes there are: the first number in which nothing is counted.
const COUNTED: u8 = 11;

// The first mode in which two pictures share an address.
const FIRST_OF_PAIRS: u8 = 3;

pub fn is_unknown(mode: u8) -> bool
    ensures { result ≡ unknown mode }
{
    ON_LINES <= mode
}

pub fn is_uncounted(mode: u8) -> bool
    ensures { result ≡ uncounted mode }
{
    COUNTED <= mode
}

pub fn is_high_rate(mode: u8) -> bool
    ensures { result ≡ high_rate mode }
{
    is_unknown(mode) & !is_uncounted(mode)
}

// The rate in a mode's row. A mode past both tables has none: what is said here for it no call gives out, since 2 is given first.
pub fn rate_at(mode: u8) -> Rate
    ensures { result ≡ rate_at mode }
{
    if (mode == 0) | ((mode == 3) | ((mode == 6) | ((mode == 7) | (mode == 9)))) {
        return Rate::At24;
    }
    if (mode == 1) | ((mode == 4) | (mode == 8)) {
        return Rate::At25;
    }
    Rate::At30
}

// The place of the last picture that shares an address, in a mode's row. A mode past both tables has none: what is said here for it no call gives out, since 2 is given first.
pub fn last_place(mode: u8) -> u8
    ensures { result + 1 ≡ pictures_at mode }
{
    if mode < FIRST_OF_PAIRS {
        return 0;
    }
    if mode == 6 {
        return 2;
    }
    if (mode == 7) | ((mode == 8) | (mode == 10)) {
        return 3;
    }
    if mode == 9 {
        return 4;
    }
    1
}

// Nothing is counted past both tables: 2.
pub fn counting_of(mode: u8) -> Result<Counting, Refusal>
    ensures { result ≡ counting_of mode }
{
    if is_uncounted(mode) {
        return Err(Refusal::UnknownMode);
    }
    Ok(Counting {
        rate: rate_at(mode),
        last: last_place(mode),
    })
}

pub fn rate_of(mode: u8) -> Result<Rate, Refusal>
    ensures { result ≡ rated_of mode }
{
    if is_unknown(mode) {
        return Err(Refusal::UnknownMode);
    }
    Ok(rate_at(mode))
}

pub fn high_row_of(mode: u8) -> Result<Counting, Refusal>
    ensures { result ≡ high_row_of mode }
{
    if !is_high_rate(mode) {
        return Err(Refusal::UnknownMode);
    }
    counting_of(mode)
}
