// A file's bytes as numbers (document 01, "Job file"): 32-bit little-endian, read as signed where the document says so.
#![tactic(auto)]

ghost use Rattle.std.specs.Prelude.{◌≡◌, ◌+◌, ◌/◌, ◌≤◌, length};
ghost use Rattle.promise.specs.Answers.{Gives};
ghost use Rattle.promise.specs.Laid.{lay};
ghost use Rattle.number_file.specs.Numbers.{max_bytes, number, numbers_of, number_at, said_numbers, reading};

use refusal::Refusal;

#[derive(Clone, Copy)]
pub struct File {
    pub length: usize,
}

impl File {
    pub const MAX_BYTES: usize = 65_536;

    pub fn max_bytes() -> usize
        ensures { result ≡ max_bytes }
    {
        File::MAX_BYTES
    }
}

// The number that four bytes hold, the least significant first.
fn number_of(a: u8, b: u8, c: u8, d: u8) -> u32
    ensures { result ≡ number a b c d }
{
    u32::from_le_bytes([a, b, c, d])
}

// The number at a place of the bytes.
fn number_at(bytes: &[u8], at: usize) -> u32
    requires { at + 4 ≤ length bytes.now }
    ensures { result ≡ number_at bytes.now at }
{
    number_of(bytes[at], bytes[at + 1], bytes[at + 2], bytes[at + 3])
}

// Lays all the numbers of the bytes at the front of `out`.
fn lay_numbers(bytes: &[u8], out: &mut [u32])
    requires { length bytes.now / 4 ≤ length out.old }
    ensures { out.new ≡ lay 0 (numbers_of bytes.now) out.old }
{
    for i in 0..bytes.len() / 4 {
        out[i] = number_at(bytes, 4 * i);
    }
}

// Lays a file's numbers at the front of `out`, and answers how many there are.
#[tactic(auto, unfolding(crate::specs::Numbers::reading))]
pub fn read_numbers(bytes: &[u8], out: &mut [u32]) -> Result<usize, Refusal>
    ensures { Gives (reading bytes.now out.old) (said_numbers result) out.new }
{
    if File::MAX_BYTES < bytes.len() {
        return Err(Refusal::Job);
    }
    if bytes.len() % 4 != 0 {
        return Err(Refusal::Job);
    }
    let n = bytes.len() / 4;
    if out.len() < n {
        return Err(Refusal::Room);
    }
    lay_numbers(bytes, out);
    Ok(n)
}
