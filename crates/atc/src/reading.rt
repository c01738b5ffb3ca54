// From 23 words to record, type and second byte.
ghost use Rattle.std.specs.Prelude.{◌≡◌, ◌≤◌, ◌<◌, ◌/◌, ◌%◌, ◌^◌, length};
ghost use Rattle.words.specs.Words.{gathered, info_in, byte_in};
ghost use Rattle.atc.specs.Calls.{read_of};

use crate::payload;
use crate::types::{Contents, Interface};
use refusals::Refusal;

// What words hold together: in each word a digit of the base, counted from the bit of the weight, and the lowest digit first.
fn digits_in<const WEIGHT: u16, const BASE: u16>(words: &[u16]) -> u64
    requires some { (0 < WEIGHT) × (0 < BASE) }
    requires fits { BASE ^ length words.now ≤ 2 ^ 64 }
    ensures { result ≡ gathered (λ word. word / WEIGHT % BASE) BASE words.now }
{
    let mut number: u64 = 0;
    for word in words.iter().rev() {
        let digit = *word / WEIGHT % BASE;
        number = u64::from(digit) + u64::from(BASE) * number;
    }
    number
}

// The information bits of at most sixteen data words: four in each, in b4 to b7.
fn info_in(words: &[u16]) -> u64
    requires { length words.now ≤ 16 }
    ensures { result ≡ info_in words.now }
{
    digits_in::<16, 16>(words)
}

// The byte that at most eight data words carry in b3.
fn byte_in(words: &[u16]) -> u8
    requires { length words.now ≤ 8 }
    ensures { result ≡ byte_in words.now }
{
    digits_in::<8, 2>(words) as u8
}

pub fn read(mode: u8, interface: Interface, words: &[u16]) -> Result<Contents, Refusal>
    ensures { result ≡ read_of mode interface words.now }
{
    packets::judge(mode, words)?;
    let payload_type = byte_in(&words[6..14]);
    let second = byte_in(&words[14..22]);
    payload::judge(mode, interface, payload_type, second)?;
    let record = payload::record_in(mode, payload_type, info_in(&words[6..22]))?;
    Ok(Contents {
        record,
        payload_type,
        second,
    })
}
