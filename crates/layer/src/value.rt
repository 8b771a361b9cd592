// The value of a tag, from the content of its kind.
ghost use Rattle.std.specs.Prelude.{◌≡◌};
ghost use Rattle.layer.specs.Calls.{value_of, bit_of};

use number::{high, low};
use table::Value;

// The low and the high half of a content of this kind.
pub(crate) fn value_of(kind: u32, bits: u64) -> Value
    ensures { result ≡ value_of kind bits }
{
    Value {
        kind,
        low: low(bits),
        high: high(bits),
    }
}

// A bool's one bit.
pub(crate) fn bit_of(b: bool) -> u64
    ensures { result ≡ bit_of b }
{
    if b {
        return 1;
    }
    0
}
