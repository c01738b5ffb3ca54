// What a packet carries: its type and second byte, and the record in its 64 bits, by the family of the mode.
ghost use Rattle.std.specs.Prelude.{◌≡◌};
ghost use Rattle.refusals.specs.Answer.{verdict_of};
ghost use Rattle.packets.specs.Packet.{is_unknown_type};
ghost use Rattle.atc.specs.Records.{shows_by, held_for, made_for};
ghost use Rattle.atc.specs.Calls.{payload_refusals};

use crate::lines::is_impossible_line;
use crate::types::Interface;
use modes::Shows;
use record::Record;
use refusals::Refusal;

// "Payload type above 2"; of the other family, any but "80 to 8F hex".
fn is_unknown_type(mode: u8, payload_type: u8) -> bool
    ensures { result ≡ is_unknown_type mode payload_type }
{
    if modes::is_high_rate(mode) {
        return payload_type / 16 != 8;
    }
    2 < payload_type
}

// Which picture a packet shows that has a mark: one of type 0 the first, whatever its mark.
fn shows_by(payload_type: u8) -> Shows
    ensures { result ≡ shows_by payload_type }
{
    if payload_type == 0 {
        return Shows::First;
    }
    Shows::ByMark
}

pub fn judge(mode: u8, interface: Interface, payload_type: u8, second: u8) -> Result<(), Refusal>
    ensures { result ≡ verdict_of (payload_refusals mode interface payload_type second) }
{
    if is_unknown_type(mode, payload_type) {
        return Err(Refusal::UnknownType);
    }
    if is_impossible_line(interface, payload_type, second) {
        return Err(Refusal::ImpossibleLine);
    }
    if superframes::is_misnamed(mode, second) {
        return Err(Refusal::MisnamedMode);
    }
    Ok(())
}

// The record that the bits hold.
pub fn record_in(mode: u8, payload_type: u8, info: u64) -> Result<Record, Refusal>
    ensures { result ≡ held_for mode payload_type info }
{
    if modes::is_high_rate(mode) {
        return superframes::from_bits(mode, info);
    }
    modes::picture_from_bits(mode, shows_by(payload_type), info)
}

// The bits that a record makes.
pub fn bits_of(mode: u8, payload_type: u8, r: Record) -> Result<u64, Refusal>
    ensures { result ≡ made_for mode payload_type r }
{
    if modes::is_high_rate(mode) {
        return superframes::to_bits(mode, r);
    }
    modes::picture_to_bits(mode, shows_by(payload_type), r)
}
