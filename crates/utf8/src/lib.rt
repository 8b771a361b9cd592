// Whether a text is UTF-8, as the Unicode Standard defines it. The ASCII at its front goes by four bytes; each byte is looked at once, but for the four at
// which that ends.
#![tactic(auto)]

ghost use Rattle.std.specs.Prelude.{◌≡◌, cond, ◌&&◌, ◌+◌, ◌-◌, ◌≤◌, ◌<◌, length, drop};
ghost use Rattle.utf8.specs.Utf8.{within, ascii, is_utf8};
ghost use Rattle.utf8.specs.Steps.{follows, ranges, Goes, Read};

// The last byte that is a sequence by itself.
const ASCII_HIGH: u8 = 0x7F;

// The range of every byte of a sequence behind its second.
const TAIL_LOW: u8 = 0x80;

const TAIL_HIGH: u8 = 0xBF;

// The length n of the sequence whose first byte stands at i, where the second byte lies in its range and each one behind it in that of them all; else 0.
fn followed(text: &[u8], i: usize, low: u8, high: u8, n: usize) -> usize
    requires { i < length text.now }
    ensures { result ≡ cond (follows (ranges low high (n - 1)) (drop (i + 1) text.now)) n 0 }
{
    if text.len() - i < n {
        return 0; // cut short
    }
    let mut lo = low;
    let mut hi = high;
    for k in 1..n {
        let b = text[i + k];
        if !((lo <= b) & (b <= hi)) {
            return 0;
        }
        lo = TAIL_LOW;
        hi = TAIL_HIGH;
    }
    n
}

// The length of the sequence at i, or 0 where none is: table 3-7, row by row.
fn sequence(text: &[u8], i: usize) -> usize
    requires { i < length text.now }
    ensures { Goes text.now i result }
{
    let a = text[i];
    if a <= ASCII_HIGH {
        return 1;
    }
    if (0xC2 <= a) & (a <= 0xDF) {
        return followed(text, i, TAIL_LOW, TAIL_HIGH, 2);
    }
    if a == 0xE0 {
        return followed(text, i, 0xA0, TAIL_HIGH, 3);
    }
    if (0xE1 <= a) & (a <= 0xEC) {
        return followed(text, i, TAIL_LOW, TAIL_HIGH, 3);
    }
    if a == 0xED {
        return followed(text, i, TAIL_LOW, 0x9F, 3);
    }
    if (0xEE <= a) & (a <= 0xEF) {
        return followed(text, i, TAIL_LOW, TAIL_HIGH, 3);
    }
    if a == 0xF0 {
        return followed(text, i, 0x90, TAIL_HIGH, 4);
    }
    if (0xF1 <= a) & (a <= 0xF3) {
        return followed(text, i, TAIL_LOW, TAIL_HIGH, 4);
    }
    if a == 0xF4 {
        return followed(text, i, TAIL_LOW, 0x8F, 4);
    }
    0
}

// Whether what stands from an index on is UTF-8, sequence by sequence.
fn is_utf8_from(text: &[u8], from: usize) -> bool
    requires { from ≤ length text.now }
    ensures { result ≡ is_utf8 (drop from text.now) }
{
    let mut i = from;
    // A `while`: each sequence says where the next one starts.
    while i < text.len() {
        let n = sequence(text, i);
        if n == 0 {
            return false;
        }
        i += n;
    }
    true
}

// Whether four bytes are ASCII: none of them has its highest bit. One test in place of four, since texts are read often and most are ASCII.
fn are_ascii(a: u8, b: u8, c: u8, d: u8) -> bool
    ensures { result ≡ (within ascii a && (within ascii b && (within ascii c && within ascii d))) }
{
    let word = u32::from_le_bytes([a, b, c, d]);
    word & 0x8080_8080 == 0
}

// Where the first four bytes stand that are not all ASCII, or fewer than four are left.
fn past_ascii(text: &[u8]) -> usize
    ensures { Read text.now 0 result }
{
    let (fours, _) = text.as_chunks::<4>();
    for (k, four) in fours.iter().enumerate() {
        if !are_ascii(four[0], four[1], four[2], four[3]) {
            return 4 * k;
        }
    }
    4 * fours.len()
}

// Whether a text is UTF-8. Rows are asked for from the first byte on that is not ASCII.
pub fn is_utf8(text: &[u8]) -> bool
    ensures { result ≡ is_utf8 text.now }
{
    for i in past_ascii(text)..text.len() {
        if ASCII_HIGH < text[i] {
            return is_utf8_from(text, i);
        }
    }
    true
}
