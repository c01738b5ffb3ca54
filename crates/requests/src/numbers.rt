// The numbers that texts say.
ghost use Rattle.std.specs.Prelude.{◌≤◌, IfSome};

// What a character is worth as a digit, upper case from 10 on: `to_digit` takes lower case too, and `from_str_radix` a `+`.
pub fn digit_of(character: u8) -> Option<u8>
    ensures { IfSome result (λ digit. digit ≤ 15) }
{
    match character {
        b'0'..=b'9' => Some(character - b'0'),
        b'A'..=b'F' => Some(character - b'A' + 10),
        _ => None,
    }
}

// A value with one digit more, where that is a digit of the base and the value stays within `most`.
fn appended(value: u64, character: u8, base: u64, most: u64) -> Option<u64>
    ensures { IfSome result (λ longer. longer ≤ most) }
{
    let digit = u64::from(digit_of(character)?);
    if base <= digit {
        return None;
    }
    let longer = base.checked_mul(value)?.checked_add(digit)?;
    if most < longer {
        return None;
    }
    Some(longer)
}

pub fn number_in(text: &[u8], base: u64, most: u64) -> Option<u64>
    ensures { IfSome result (λ number. number ≤ most) }
{
    if text.is_empty() {
        return None;
    }
    let mut value = 0;
    for character in text {
        value = appended(value, *character, base, most)?;
    }
    Some(value)
}

// "COUNT is any signed 32-bit number": it is kept as how far it is above the lowest of them.
pub fn count_in(text: &[u8]) -> Option<u64>
    ensures { IfSome result (λ above_lowest. above_lowest ≤ 4294967295) }
{
    match text {
        [b'-', frames @ ..] => Some(0x8000_0000 - number_in(frames, 10, 0x8000_0000)?),
        _ => Some(0x8000_0000 + number_in(text, 10, 0x7fff_ffff)?),
    }
}
