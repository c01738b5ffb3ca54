// Bits in the opposite order.
ghost use Rattle.std.specs.Prelude.{◌≡◌, reverse};
ghost use Rattle.bits.specs.Bits.{value, to_bits};

// 64 bits turned round: the last is the first.
pub fn turned(number: u64) -> u64
    ensures { result ≡ value (reverse (to_bits 64 number)) }
{
    number.reverse_bits()
}
