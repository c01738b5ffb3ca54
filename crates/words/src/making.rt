// One word with its b8 and b9, and a run of data words.
ghost use Rattle.std.specs.Prelude.{◌≡◌, length};
ghost use Rattle.bits.specs.Bits.{to_bits};
ghost use Rattle.words.specs.Words.{with_opposite, data_word, data_words};

// Nine bits, and in b9 the opposite of b8.
pub fn with_opposite(nine: u16) -> u16
    ensures { result ≡ with_opposite nine }
{
    if nine < 256 {
        return nine + 512;
    }
    nine
}

// Four information bits and one bit of the type or the second byte, with b8 and b9.
fn data_word(nibble: u8, bit: u8) -> u16
    ensures { result ≡ data_word nibble bit }
{
    let byte = 8 * bit as u16 + 16 * nibble as u16;
    let even = (u16::count_ones(byte % 256) % 2) as u16;
    with_opposite(byte + 256 * even)
}

// A data word to each element: the next four information bits, and the next bit of what b3 carries.
pub fn store_data(info: u64, carried: u16, run: &mut [u16])
    ensures { run.new ≡ data_words (to_bits (length run.old) carried) info }
{
    let mut left = info;
    let mut bits = carried;
    for word in run.iter_mut() {
        let nibble = (left % 16) as u8;
        let bit = (bits % 2) as u8;
        *word = data_word(nibble, bit);
        left /= 16;
        bits /= 2;
    }
}
