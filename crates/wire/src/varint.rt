// Varints: a number in one to ten bytes, seven bits a byte (PB).
ghost use Rattle.std.specs.Prelude.{◌≡◌, ◌+◌, ◌%◌, ◌≤◌, length};
ghost use Rattle.promise.specs.Answers.{Gives};
ghost use Rattle.wire.specs.Varints.{varint};
ghost use Rattle.promise.specs.Puts.{put, Puts};

pub fn varint_size(n: u64) -> usize
    ensures { result ≡ length (varint n) }
{
    if n < 128 {
        return 1;
    }
    if n < 16_384 {
        return 2;
    }
    if n < 2_097_152 {
        return 3;
    }
    if n < 268_435_456 {
        return 4;
    }
    if n < 34_359_738_368 {
        return 5;
    }
    if n < 4_398_046_511_104 {
        return 6;
    }
    if n < 562_949_953_421_312 {
        return 7;
    }
    if n < 72_057_594_037_927_936 {
        return 8;
    }
    if n < 9_223_372_036_854_775_808 {
        return 9;
    }
    10
}

// The low seven bits, with the mark that more follow.
fn group(n: u64) -> u8
    ensures { result ≡ n % 128 + 128 }
{
    (n % 128 + 128) as u8
}

// How many bytes there are shows on the way, so it is a `while`.
fn lay_varint(n: u64, out: &mut [u8]) -> usize
    requires { length (varint n) ≤ length out.old }
    ensures { Puts (varint n) out.old result out.new }
{
    let mut m = n;
    let mut i = 0;
    while 128 <= m {
        let b = group(m);
        out[i] = b;
        m /= 128;
        i += 1;
    }
    out[i] = m as u8;
    i + 1
}

pub fn put_varint(n: u64, out: &mut [u8]) -> usize
    ensures { Gives (put (varint n) out.old) result out.new }
{
    let size = varint_size(n);
    if out.len() < size {
        return 0;
    }
    lay_varint(n, out)
}
