// Numbers of the machine, one as another, once for every crate: widened, taken into halves and put together, read as signed and back, how far from
// zero; and the smaller of two.
#![tactic(auto)]

ghost use Rattle.std.specs.Prelude.{◌≡◌, ◌%◌, ◌/◌, nat_abs};
ghost use Rattle.promise.specs.Widened.{Wide};
ghost use Rattle.whole.specs.Twos.{signed32, signed64, wide, bits_of};
ghost use Rattle.number.specs.Least.{smaller};

// ---- 32 bits in 64
pub fn wide(word: u32) -> usize
    ensures { Wide word result }
{
    word as usize // `usize` has no `From<u32>`
}

pub fn long(word: u32) -> u64
    ensures { Wide word result }
{
    u64::from(word)
}

pub fn signed_long(n: i32) -> i64
    ensures { result ≡ n }
{
    i64::from(n)
}

// ---- 64 bits as two words
pub fn low(bits: u64) -> u32
    ensures { result ≡ bits % 4294967296 }
{
    (bits % 4_294_967_296) as u32
}

pub fn high(bits: u64) -> u32
    ensures { result ≡ bits / 4294967296 }
{
    (bits / 4_294_967_296) as u32
}

pub fn of_halves(low: u32, high: u32) -> u64
    ensures { result ≡ wide low high }
{
    u64::from(low) + 4_294_967_296 * u64::from(high)
}

// ---- two's complement: a word read as a signed number, and a signed number's bits
pub fn signed32(word: u32) -> i32
    ensures { result ≡ signed32 word }
{
    word.cast_signed()
}

pub fn signed64(bits: u64) -> i64
    ensures { result ≡ signed64 bits }
{
    bits.cast_signed()
}

pub fn bits_of(n: i64) -> u64
    ensures { result ≡ bits_of n }
{
    n.cast_unsigned()
}

// ---- how far a number is from zero
pub fn magnitude(n: i64) -> u64
    ensures { result ≡ nat_abs n }
{
    n.unsigned_abs()
}

// ---- the smaller of two
pub fn smaller(a: usize, b: usize) -> usize
    ensures { result ≡ smaller a b }
{
    a.min(b)
}
