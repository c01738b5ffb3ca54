// Linear words and vertical interval lines, in modes 0 to 5, and ancillary packets, in modes 0 to 10.
ghost use Rattle.std.specs.Prelude.{◌≡◌};
ghost use Rattle.host.specs.Carriers.{ltc_read, ltc_written, ltc_run, vitc_read, vitc_written, vitc_run, atc_read, atc_written, atc_run};

use crate::unnamed::after_mode;
use modes::{is_uncounted, is_unknown};
use plain::{
    LineAnswer, PacketAnswer, PlainContents, PlainRecord, WordAnswer, has_flag_above_1,
    interface_given, is_no_interface, is_no_make, make_given,
};
use refusals::Refusal;

#[tactic(auto, unfolding(crate::specs::Carriers::ltc_read))]
#[unsafe(no_mangle)]
pub extern "C" fn shx_ltc_read(mode: u8, word: &[u8]) -> WordAnswer
    ensures { result ≡ ltc_read mode word.now }
{
    ltc::read(mode, word).into()
}

#[unsafe(no_mangle)]
pub extern "C" fn shx_ltc_write(
    mode: u8,
    r: PlainRecord,
    make: u8,
    start: usize,
    run: &mut [u8],
) -> u8
    ensures { (result ≡ ltc_written mode r make start run.old) × (run.new ≡ ltc_run mode r make start run.old) }
{
    let no_flag = has_flag_above_1(r);
    let no_make = is_no_make(make);
    if no_flag | no_make {
        return plain::written(Err(after_mode(is_unknown(mode))));
    }
    plain::written(ltc::write(mode, r.into(), make_given(make), start, run))
}

#[tactic(auto, unfolding(crate::specs::Carriers::vitc_read))]
#[unsafe(no_mangle)]
pub extern "C" fn shx_vitc_read(mode: u8, line: &[u8]) -> LineAnswer
    ensures { result ≡ vitc_read mode line.now }
{
    vitc::read(mode, line).into()
}

#[unsafe(no_mangle)]
pub extern "C" fn shx_vitc_write(mode: u8, r: PlainRecord, start: usize, run: &mut [u8]) -> u8
    ensures { (result ≡ vitc_written mode r start run.old) × (run.new ≡ vitc_run mode r start run.old) }
{
    let no_flag = has_flag_above_1(r);
    if no_flag {
        return plain::written(Err(after_mode(is_unknown(mode))));
    }
    plain::written(vitc::write(mode, r.into(), start, run))
}

#[unsafe(no_mangle)]
pub extern "C" fn shx_atc_read(mode: u8, interface: u8, words: &[u16]) -> PacketAnswer
    ensures { result ≡ atc_read mode interface words.now }
{
    if is_no_interface(interface) {
        if words.len() != 23 {
            return PacketAnswer::from(Err(Refusal::WrongLength));
        }
        return PacketAnswer::from(Err(after_mode(is_uncounted(mode))));
    }
    atc::read(mode, interface_given(interface), words).into()
}

#[unsafe(no_mangle)]
pub extern "C" fn shx_atc_write(
    mode: u8,
    interface: u8,
    contents: PlainContents,
    start: usize,
    run: &mut [u16],
) -> u8
    ensures { (result ≡ atc_written mode interface contents start run.old)
        × (run.new ≡ atc_run mode interface contents start run.old) }
{
    let r = contents.record;
    let no_flag = has_flag_above_1(r);
    let no_interface = is_no_interface(interface);
    if no_flag | no_interface {
        return plain::written(Err(after_mode(is_uncounted(mode))));
    }
    plain::written(atc::write(
        mode,
        interface_given(interface),
        r.into(),
        contents.payload_type,
        contents.second,
        start,
        run,
    ))
}
