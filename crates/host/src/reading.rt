// A reader by value: what is fed and what comes back. "A state that is no reader's is refused (13) and comes back as it was."
ghost use Rattle.std.specs.Prelude.{◌≡◌};
ghost use Rattle.host.specs.Reading.{fresh_for, step_for, block_for};

use crate::unnamed::after_reader;
use plain::{BlockAnswer, PlainReader, StepAnswer, code_alone, is_no_ways};
use register::Reader;

#[unsafe(no_mangle)]
pub extern "C" fn shx_fresh(mode: u8, ways: u8) -> PlainReader
    ensures { result ≡ fresh_for mode ways }
{
    PlainReader {
        info: 0,
        sync: 0,
        mode,
        ways,
        held: 0,
    }
}

#[unsafe(no_mangle)]
pub extern "C" fn shx_step(reader: PlainReader, element: u8) -> StepAnswer
    ensures { result ≡ step_for reader element }
{
    let given = Reader::from(reader);
    if is_no_ways(reader.ways) {
        let code = u8::from(after_reader(given));
        return StepAnswer {
            heard: code_alone(code),
            reader,
        };
    }
    reader::step(given, element).into()
}

#[unsafe(no_mangle)]
pub extern "C" fn shx_block(reader: PlainReader, limit: usize, run: &[u8]) -> BlockAnswer
    ensures { result ≡ block_for reader limit run.now }
{
    let given = Reader::from(reader);
    if is_no_ways(reader.ways) {
        let code = u8::from(after_reader(given));
        return BlockAnswer {
            heard: code_alone(code),
            reader,
            taken: 0,
        };
    }
    reader::block(given, limit, run).into()
}
