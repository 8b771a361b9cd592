// A byte of a varint that is under way (PB, "Base 128 Varints").
ghost use Rattle.std.specs.Prelude.{◌≡◌, ◌≤◌, ◌<◌};
ghost use Rattle.scan.specs.Automaton.{unit as unit_of, digit};

use scan::Digit;

// How many bytes a varint may have before its last.
pub(crate) const BEFORE_LAST: u32 = 9;

// The lowest byte that another one follows; it is what seven bits count up to.
const MORE: u64 = 128;

// One more than the largest tenth byte: nine bytes hold 63 bits, so that one bit is left.
const TENTH: u64 = 2;

// The place value of a varint's byte that stands behind i others.
pub(crate) fn unit(i: u32) -> u64
    requires { i ≤ 9 }
    ensures { result ≡ unit_of i }
{
    if i == 0 {
        return 1;
    }
    if i == 1 {
        return 128;
    }
    if i == 2 {
        return 16_384;
    }
    if i == 3 {
        return 2_097_152;
    }
    if i == 4 {
        return 268_435_456;
    }
    if i == 5 {
        return 34_359_738_368;
    }
    if i == 6 {
        return 4_398_046_511_104;
    }
    if i == 7 {
        return 562_949_953_421_312;
    }
    if i == 8 {
        return 72_057_594_037_927_936;
    }
    9_223_372_036_854_775_808
}

// The byte b, where i bytes are read and v is their value.
pub(crate) fn next_digit(i: u32, v: u64, b: u8) -> Digit
    requires { (i ≤ 9) × (v < unit_of i) }
    ensures { result ≡ digit i v b }
{
    let u = unit(i);
    let n = u64::from(b);
    if i < BEFORE_LAST {
        if n < MORE {
            return Digit::Ends(v + u * n);
        }
        return Digit::More(v + u * (n % MORE));
    }
    if n < TENTH {
        return Digit::Ends(v + u * n);
    }
    Digit::Bad
}
