// A field where it stands in some bytes, which end where its message does (PB, "Message Structure").
ghost use Rattle.std.specs.Prelude.{◌≡◌, ◌+◌, ◌≤◌, length, take, drop};
ghost use Rattle.messages.specs.Fields.{from_little, varint_at, numbered as numberedOf, fixed as fixed_of, bodied as bodiedOf, content as content_of, field_at};
ghost use Rattle.messages.specs.Asking.{FourOrEight, Short};

use crate::key::{Follows, Kind, after_key};
use crate::numbers::varint_at;

#[derive(Clone, Copy)]
pub struct FieldAt {
    // 8 × number + wire type.
    pub key: u64,
    // Its number, or the bits of its four or eight bytes; 0 where it has a body.
    pub value: u64,
    // Where its content stands, of a body without the length before it.
    pub start: usize,
    pub end: usize,
}

// A field that is a number.
fn numbered(key: u64, src: &[u8], at: usize) -> Option<FieldAt>
    ensures { result ≡ numberedOf key at (varint_at at src.now) }
{
    let (value, next) = varint_at(src, at)?;
    Some(FieldAt {
        key,
        value,
        start: at,
        end: next,
    })
}

// The number of four bytes, the least significant first.
fn four(src: &[u8], at: usize) -> u32
    requires { at + 4 ≤ length src.now }
    ensures { result ≡ from_little (take 4 (drop at src.now)) }
{
    u32::from_le_bytes([src[at], src[at + 1], src[at + 2], src[at + 3]])
}

// The number of four or eight bytes.
fn little(src: &[u8], at: usize, n: usize) -> u64
    requires { FourOrEight n × (at + n ≤ length src.now) }
    ensures { result ≡ from_little (take n (drop at src.now)) }
{
    if n == 4 {
        return u64::from(four(src, at));
    }
    u64::from(four(src, at)) + 4_294_967_296 * u64::from(four(src, at + 4))
}

// A field of so many bytes.
fn fixed(key: u64, n: u64, src: &[u8], at: usize) -> Option<FieldAt>
    requires { FourOrEight n × (at ≤ length src.now) }
    ensures { result ≡ fixed_of key n at src.now }
{
    let size = n as usize;
    if src.len() - at < size {
        return None;
    }
    Some(FieldAt {
        key,
        value: little(src, at, size),
        start: at,
        end: at + size,
    })
}

// A field with a length and a body.
fn bodied(key: u64, src: &[u8], at: usize) -> Option<FieldAt>
    ensures { result ≡ bodiedOf key src.now (varint_at at src.now) }
{
    let (n, start) = varint_at(src, at)?;
    if ((src.len() - start) as u64) < n {
        return None;
    }
    Some(FieldAt {
        key,
        value: 0,
        start,
        end: start + (n as usize),
    })
}

// What follows the key.
fn content(f: Follows, key: u64, src: &[u8], at: usize) -> Option<FieldAt>
    requires { Short f × (at ≤ length src.now) }
    ensures { result ≡ content_of key at src.now f }
{
    match f {
        Follows::Wrong => None,
        Follows::AVarint => numbered(key, src, at),
        Follows::Bytes(n) => fixed(key, n, src, at),
        Follows::ABody(_) => bodied(key, src, at),
    }
}

// The field of a message of that kind that stands at a place. None where it can't be read.
pub fn field_at(kind: Kind, src: &[u8], at: usize) -> Option<FieldAt>
    ensures { result ≡ field_at kind at src.now }
{
    let (key, next) = varint_at(src, at)?;
    let f = after_key(kind, key);
    content(f, key, src, next)
}
