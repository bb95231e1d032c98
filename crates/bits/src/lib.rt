// Bits, the most significant first: those of bytes, and those of a number.
#![tactic(auto)]

ghost use Rattle.std.specs.Prelude.{◌<◌, ◌≡◌, get_or};
ghost use Rattle.bits.specs.Bits.{bits_of, bits_of_bytes};

// The bit at a place, 0 past the end.
#[tactic(auto, using(crate::proofs::Bits::byte_bit, crate::proofs::Bits::bit_past))]
pub fn bit(bytes: &[u8], at: usize) -> u64
    ensures value { result ≡ get_or (bits_of_bytes bytes.now) at 0 }
    ensures bound { result < 2 }
{
    match bytes.get(at / 8) {
        Some(byte) => (u64::from(*byte) >> (7 - at % 8)) % 2,
        None => 0,
    }
}

// The bit at a place of a number that is written in so many bits, 0 past its end.
#[tactic(auto, using(crate::proofs::Bits::bit_of, crate::proofs::Bits::bit_of_high, crate::proofs::Bits::bit_of_past))]
pub fn bit_of(v: u64, width: usize, k: usize) -> u64
    ensures value { result ≡ get_or (bits_of width v) k 0 }
    ensures bound { result < 2 }
{
    if k < width {
        let exponent = width - 1 - k;
        if exponent < 64 {
            return (v >> exponent) % 2;
        }
    }
    0
}
