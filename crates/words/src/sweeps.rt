// What is asked of all words: tests and the checksum.
ghost use Rattle.std.specs.Prelude.{ℕ, ◌≡◌, ◌%◌, Bool};
ghost use Rattle.std.specs.List.{list_any};
ghost use Rattle.bits.specs.Bits.{some_above};
ghost use Rattle.words.specs.Words.{wrong_word, low_set, some_word, sum9, with_opposite};

use crate::making::with_opposite;

// So many words are tested without a branch: a whole packet of 23 words at once, while a long run still stops early.
const AT_ONCE: usize = 32;

// Whether some word meets the test.
fn has_word_that<F: Fn(u16) -> bool>(words: &[u16], test: F) -> bool
    requires { F.IsAlwaysCallable test }
    ensures { (meets : ℕ → Bool) → ((word : ℕ) (met : Bool) → F.post test word met → met ≡ meets word) → result ≡ list_any meets words.now }
{
    for few in words.chunks(AT_ONCE) {
        if few.iter().fold(false, |met, word| met | test(*word)) {
            return true;
        }
    }
    false
}

// Whether b8 or b9 of a data word is wrong.
fn is_wrong(word: u16) -> bool
    ensures { result ≡ wrong_word word }
{
    let ones = u16::count_ones(word % 512);
    !(ones % 2 == 0) | (word / 512 % 2 == word / 256 % 2)
}

pub fn has_high_word(words: &[u16]) -> bool
    ensures { result ≡ some_above 1023 words.now }
{
    has_word_that(words, |word| 1023 < word)
}

// Whether b8 or b9 of some data word is wrong.
pub fn has_wrong_word(words: &[u16]) -> bool
    ensures { result ≡ some_word wrong_word words.now }
{
    has_word_that(words, |word| is_wrong(word))
}

// Whether b0, b1 or b2 of some data word is set.
pub fn has_low_bits(words: &[u16]) -> bool
    ensures { result ≡ some_word low_set words.now }
{
    has_word_that(words, |word| word % 8 != 0)
}

// The nine low bits of the words summed modulo 512, with b9.
pub fn checksum(words: &[u16]) -> u16
    ensures { result ≡ with_opposite (sum9 words.now % 512) }
{
    let mut sum: u16 = 0;
    for word in words {
        sum = (sum + *word % 512) % 512;
    }
    with_opposite(sum)
}
