// "The program reads characters 0 and 1 in mode 2, skips spaces and line feeds, and ends at .. any other character"
ghost use Rattle.std.specs.Prelude.{◌≡◌};
ghost use Rattle.runs.specs.Run.{placed};
ghost use Rattle.characters.specs.Characters.{is_skipped, is_digit, bits_in, sifted_of};

use crate::types::Sifted;

fn is_skipped(character: u8) -> bool
    ensures { result ≡ is_skipped character }
{
    (character == b' ') | (character == b'\n')
}

fn is_digit(character: u8) -> bool
    ensures { result ≡ is_digit character }
{
    (character == b'0') | (character == b'1')
}

pub fn sift(run: &mut [u8]) -> Sifted
    ensures { (result ≡ sifted_of run.old) × (run.new ≡ placed 0 (bits_in run.old) run.old) }
{
    // By index: the bits are put where characters stood, and an iterator would keep the run lent.
    let mut write = 0;
    for read in 0..run.len() {
        let character = run[read];
        if is_skipped(character) {
            continue;
        }
        if is_digit(character) {
            run[write] = character - b'0';
            write += 1;
            continue;
        }
        return Sifted {
            bits: write,
            more: false,
        };
    }
    Sifted {
        bits: write,
        more: true,
    }
}
