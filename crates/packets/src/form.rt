// The form of a packet, whatever it carries.
ghost use Rattle.std.specs.Prelude.{◌≡◌, ◌≤◌, length};
ghost use Rattle.refusals.specs.Answer.{verdict_of};
ghost use Rattle.packets.specs.Packet.{fifth_word, is_headed};
ghost use Rattle.packets.specs.Calls.{form_refusals};

use refusals::Refusal;

// By the family of the mode.
pub fn fifth_word(mode: u8) -> u16
    ensures { result ≡ fifth_word mode }
{
    if modes::is_high_rate(mode) {
        return 0x161;
    }
    0x260
}

// Whether the first six words are those of a packet in the mode.
fn is_headed(mode: u8, words: &[u16]) -> bool
    requires { 6 ≤ length words.now }
    ensures { result ≡ is_headed mode words.now }
{
    let fifth = fifth_word(mode);
    words[..6] == [0x000, 0x3FF, 0x3FF, 0x260, fifth, 0x110]
}

// Whether the words have the form of a packet, whatever they carry.
pub fn judge(mode: u8, words: &[u16]) -> Result<(), Refusal>
    ensures { result ≡ verdict_of (form_refusals mode words.now) }
{
    if words.len() != 23 {
        return Err(Refusal::WrongLength);
    }
    modes::counting_of(mode)?;
    if words::has_high_word(words) {
        return Err(Refusal::ElementTooHigh);
    }
    if !is_headed(mode, words) {
        return Err(Refusal::WrongSync);
    }
    let data = &words[6..22];
    if words::has_wrong_word(data) {
        return Err(Refusal::WrongCheck);
    }
    if words[22] != words::checksum(&words[3..22]) {
        return Err(Refusal::WrongCheck);
    }
    if words::has_low_bits(data) {
        return Err(Refusal::LowBitsSet);
    }
    Ok(())
}
