// Varints where they stand in some bytes (PB, "Base 128 Varints"): one, and whether there are none but whole ones to the end. Most varints of a tile have one
// byte or two, so that this is asked first, and what has more goes by a function of its own.
ghost use Rattle.std.specs.Prelude.{◌≡◌, ◌<◌, ◌≤◌, length, get_or};
ghost use Rattle.messages.specs.Fields.{varint_at, numbers_from};
ghost use Rattle.messages.specs.Tiles.{is_read};
ghost use Rattle.messages.specs.Asking.{next_of};

// The lowest byte with the highest bit, which says that a byte follows.
const MORE: u8 = 128;

// What the other seven bits count up to.
const GROUP: u64 = 128;

// One more than the largest tenth byte: nine bytes hold 63 bits, so that one is left.
const TENTH: u8 = 2;

// How many bytes may stand before the last.
const BEFORE_LAST: usize = 9;

// How many bytes a number of 32 bits has at most.
const BYTES_OF_32: usize = 5;

// A varint whose first byte has its highest bit.
fn long_varint(src: &[u8], at: usize) -> Option<(u64, usize)>
    requires { (at < length src.now) × (128 ≤ get_or src.now at 0) }
    ensures { result ≡ varint_at at src.now }
{
    let mut n = u64::from(src[at]) % GROUP;
    let mut unit = GROUP;
    for i in 1..BEFORE_LAST {
        let b = *src.get(at + i)?;
        if b < MORE {
            return Some((n + unit * u64::from(b), at + i + 1));
        }
        n += unit * (u64::from(b) % GROUP);
        unit *= GROUP;
    }
    let tenth = *src.get(at + BEFORE_LAST)?;
    if tenth < TENTH {
        return Some((n + unit * u64::from(tenth), at + BEFORE_LAST + 1));
    }
    None
}

// The varint that stands at a place: its number, and where the next byte stands. None where it is cut, or has more than ten bytes or 64 bits.
pub fn varint_at(src: &[u8], at: usize) -> Option<(u64, usize)>
    ensures { result ≡ varint_at at src.now }
{
    let b = *src.get(at)?;
    if b < MORE {
        return Some((u64::from(b), at + 1));
    }
    let c = *src.get(at + 1)?;
    if c < MORE {
        return Some((u64::from(b) % GROUP + GROUP * u64::from(c), at + 2));
    }
    long_varint(src, at)
}

// Where the byte behind a varint stands whose first byte has its highest bit, whatever its number is. A number of a list has 32 bits, and so five bytes at
// most; longer forms are rare.
fn long_end(src: &[u8], at: usize) -> Option<usize>
    requires { (at < length src.now) × (128 ≤ get_or src.now at 0) }
    ensures { result ≡ next_of (varint_at at src.now) }
{
    for i in 1..BYTES_OF_32 {
        let c = *src.get(at + i)?;
        if c < MORE {
            return Some(at + i + 1);
        }
    }
    let (_, next) = long_varint(src, at)?;
    Some(next)
}

// Whether what stands from a place on is varints, exactly to the end. Each turn passes over a whole varint, so it is a `while`.
pub fn are_varints(src: &[u8], at: usize) -> bool
    ensures { result ≡ is_read (numbers_from at src.now) }
{
    let mut i = at;
    while i < src.len() {
        if src[i] < MORE {
            i += 1;
        } else {
            let Some(next) = long_end(src, i) else {
                return false;
            };
            i = next;
        }
    }
    true
}
