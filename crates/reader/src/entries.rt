// The next key and the next value of a layer. Of a value's fields the one that is its kind is kept in one pass: the lowest, and of a kind the last.
ghost use Rattle.std.specs.Prelude.{◌≡◌};
ghost use Rattle.messages.specs.declared.key.Kind.TheVariants.{Value as value};
ghost use Rattle.messages.specs.Fields.{fields_from};
ghost use Rattle.messages.specs.Tiles.{Answers};
ghost use Rattle.words.specs.Params.{unparam};
ghost use Rattle.reader.specs.Answers.{next_key, next_value};
ghost use Rattle.reader.specs.Bits.{bits64};
ghost use Rattle.reader.specs.Heads.{bits_of, text_in};
ghost use Rattle.reader.specs.Steps.{is_kind, kind_with, OfKind, kept_head, key_step, value_in, value_step};

use crate::cause::{Cause, fault_of};
use crate::find::first_of;
use crate::layers::{Part, part_of};
use messages::field::{FieldAt, field_at};
use messages::key::{Key, Kind};
use refusal::Fault;

// A value: 1 text, 2 float, 3 double, 4 int, 5 uint, 6 sint, 7 bool, or 0 where it is empty.
#[derive(Clone, Copy)]
pub struct ValueAt {
    pub kind: u32,
    // Of a text: where it stands.
    pub text: Part,
    // Of a float and a double the bits, of an int and a sint the 64 bits of the number, of a uint the number, of a bool 0 or 1.
    pub bits: u64,
    // The next value is behind it.
    pub end: usize,
}

// The largest number of 64 bits, which stands for -1.
const MINUS_ONE: u64 = 18_446_744_073_709_551_615;

// The first key from a place of a layer on, which ends where its message does.
fn key_step(src: &[u8], at: usize, end: usize) -> Result<Option<Part>, Cause>
    ensures { result ≡ key_step at end src.now }
{
    if end < at {
        return Err(Cause::Outside);
    }
    if src.len() < end {
        return Err(Cause::Outside);
    }
    let Some(f) = first_of(Kind::Layer, Key::LAYER_KEY, &src[..end], at)? else {
        return Ok(None);
    };
    Ok(Some(part_of(f)))
}

fn is_kind(key: u64) -> bool
    ensures { result ≡ is_kind key }
{
    (key == Key::VALUE_TEXT)
        | (key == Key::VALUE_FLOAT)
        | (key == Key::VALUE_DOUBLE)
        | (key == Key::VALUE_INT)
        | (key == Key::VALUE_UINT)
        | (key == Key::VALUE_SINT)
        | (key == Key::VALUE_BOOL)
}

// The field that is the kind so far, with one more: keys rise with the numbers, and a key of 0 is no field yet.
fn kind_with(kept: FieldAt, f: FieldAt) -> FieldAt
    ensures { result ≡ kind_with kept f }
{
    if !is_kind(f.key) {
        return kept;
    }
    if kept.key == 0 {
        return f;
    }
    if kept.key < f.key {
        return kept;
    }
    f
}

// A sint's zigzag undone, two's complement.
fn from_zigzag(n: u64) -> u64
    ensures { result ≡ bits64 (unparam n) }
{
    if n % 2 == 0 {
        return n / 2;
    }
    MINUS_ONE - n / 2
}

fn bits_of(f: FieldAt) -> u64
    ensures { result ≡ bits_of f }
{
    if f.key == Key::VALUE_SINT {
        return from_zigzag(f.value);
    }
    if f.key == Key::VALUE_BOOL {
        if f.value == 0 {
            return 0;
        }
        return 1;
    }
    f.value
}

fn text_in(f: FieldAt) -> Part
    requires { OfKind f }
    ensures { result ≡ text_in f }
{
    if f.key == Key::VALUE_TEXT {
        return part_of(f);
    }
    Part { start: 0, len: 0 }
}

// What a value says whose kind is that field.
fn value_of(f: FieldAt, end: usize) -> ValueAt
    requires { OfKind f }
    ensures { result ≡ kept_head end f }
{
    ValueAt {
        kind: (f.key / 8) as u32,
        text: text_in(f),
        bits: bits_of(f),
        end,
    }
}

// What a value's fields say, in bytes that end where its message does.
fn value_in(f: FieldAt, src: &[u8]) -> Result<Option<ValueAt>, Cause>
    ensures { result ≡ value_in f (fields_from value f.start src.now) }
{
    let mut at = f.start;
    let mut kept = FieldAt {
        key: 0,
        value: 0,
        start: 0,
        end: 0,
    };
    // A turn goes on where its field ends, so that no `for` says it plainer.
    while at < src.len() {
        let Some(g) = field_at(Kind::Value, src, at) else {
            return Err(Cause::Broken);
        };
        kept = kind_with(kept, g);
        at = g.end;
    }
    Ok(Some(value_of(kept, f.end)))
}

// The first value from a place of a layer on, which ends where its message does.
fn value_step(src: &[u8], at: usize, end: usize) -> Result<Option<ValueAt>, Cause>
    ensures { result ≡ value_step at end src.now }
{
    if end < at {
        return Err(Cause::Outside);
    }
    if src.len() < end {
        return Err(Cause::Outside);
    }
    let Some(f) = first_of(Kind::Layer, Key::LAYER_VALUE, &src[..end], at)? else {
        return Ok(None);
    };
    value_in(f, &src[..f.end])
}

// The next key of a layer whose message ends at a place, from another on: where it starts, or where the key before it ends. The answer is where its text stands,
// or None where no key follows; the next key is behind it.
pub fn next_key_at(src: &[u8], at: usize, end: usize) -> Result<Option<Part>, Fault>
    ensures { Answers src.now (next_key at end src.now) result }
{
    match key_step(src, at, end) {
        Ok(key) => Ok(key),
        Err(e) => Err(fault_of(src, e)),
    }
}

// The next value, alike.
pub fn next_value_at(src: &[u8], at: usize, end: usize) -> Result<Option<ValueAt>, Fault>
    ensures { Answers src.now (next_value at end src.now) result }
{
    match value_step(src, at, end) {
        Ok(value) => Ok(value),
        Err(e) => Err(fault_of(src, e)),
    }
}
