// The zeros of a word and its polarity bit: the sync word has three zeros and thirteen ones.
ghost use Rattle.std.specs.Prelude.{◌≡◌};
ghost use Rattle.rates.specs.declared.types.Flag.TheVariants.{No};
ghost use Rattle.record.specs.Record.{marked};
ghost use Rattle.polarity.specs.Word.{word_with, odd_zeros, miscorrected, found_in};

use crate::types::Found;
use rates::{Flag, Rate};
use record::{Flags, Record};

pub fn has_odd_zeros(info: u64) -> bool
    ensures { result ≡ odd_zeros (word_with info) }
{
    let zeros = 67 - u64::count_ones(info);
    zeros % 2 == 1
}

// "corrected when the zeros are even, uncorrected when they are odd".
pub fn found_in(info: u64) -> Found
    ensures { result ≡ found_in (word_with info) }
{
    if has_odd_zeros(info) {
        return Found::Uncorrected;
    }
    Found::Corrected
}

// "its zeros are odd and its polarity bit is 1".
pub fn is_miscorrected(rate: Rate, info: u64) -> bool
    ensures { result ≡ miscorrected rate (word_with info) }
{
    let value = layout::mark_value(rate);
    let polarity = layout::flag(info / value % 2);
    has_odd_zeros(info) & rates::is_yes(polarity)
}

// "Reading gives a record with mark 0": the polarity bit is no mark of the record.
pub fn unmarked(r: Record) -> Record
    ensures { result ≡ marked No r }
{
    Record {
        flags: Flags {
            mark: Flag::No,
            ..r.flags
        },
        ..r
    }
}
