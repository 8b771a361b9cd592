// A sint's zigzag, of its 64 bits.
ghost use Rattle.std.specs.Prelude.{◌≡◌};
ghost use Rattle.wire.specs.Numbers.{zigzag};

// Below zero, in two's complement, what is left to the largest is one less than the distance from zero.
pub fn zigzag(bits: u64) -> u64
    ensures { result ≡ zigzag bits }
{
    if bits < 9_223_372_036_854_775_808 {
        return 2 * bits;
    }
    2 * (u64::MAX - bits) + 1
}
