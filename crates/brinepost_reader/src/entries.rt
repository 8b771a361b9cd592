// The next key and the next value of a layer, from C.
ghost use Rattle.std.specs.Prelude.{◌≡◌};
ghost use Rattle.messages.specs.Tiles.{Answers};
ghost use Rattle.reader.specs.Answers.{next_key, next_value};
ghost use Rattle.brinepost_reader.specs.Flat.{as_told, no_key, flat_key, no_value, flat_value};

use reader::entries::{ValueAt, next_key_at, next_value_at};
use reader::layers::Part;
use refusal::Fault;

#[repr(C)]
#[derive(Clone, Copy)]
pub struct BpNextKey {
    pub refusal: u32,
    // 1, or 0 where no key follows or the call is refused.
    pub is_there: u32,
    pub place: usize,
    pub start: usize,
    pub len: usize,
}

#[repr(C)]
#[derive(Clone, Copy)]
pub struct BpNextValue {
    pub refusal: u32,
    // 1, or 0 where no value follows or the call is refused.
    pub is_there: u32,
    pub place: usize,
    // 1 text, 2 float, 3 double, 4 int, 5 uint, 6 sint, 7 bool, or 0 where it is empty.
    pub kind: u32,
    // Of a text.
    pub start: usize,
    pub len: usize,
    // Of what is no text.
    pub bits: u64,
    pub next: usize,
}

// No key, refused or not.
fn without_key(refusal: u32, place: usize) -> BpNextKey
    ensures { result ≡ no_key refusal place }
{
    BpNextKey {
        refusal,
        is_there: 0,
        place,
        start: 0,
        len: 0,
    }
}

fn answered_key(r: Result<Option<Part>, Fault>) -> BpNextKey
    ensures { result ≡ flat_key r }
{
    match r {
        Ok(Some(p)) => BpNextKey {
            refusal: 0,
            is_there: 1,
            place: 0,
            start: p.start,
            len: p.len,
        },
        Ok(None) => without_key(0, 0),
        Err(f) => without_key(refusal::number(f.refusal), f.place),
    }
}

#[unsafe(no_mangle)]
pub extern "C" fn bp_next_key(bytes: &[u8], at: usize, end: usize) -> BpNextKey
    ensures { Answers bytes.now (as_told flat_key (next_key at end bytes.now)) result }
{
    let r = next_key_at(bytes, at, end);
    answered_key(r)
}

// No value, refused or not.
fn without_value(refusal: u32, place: usize) -> BpNextValue
    ensures { result ≡ no_value refusal place }
{
    BpNextValue {
        refusal,
        is_there: 0,
        place,
        kind: 0,
        start: 0,
        len: 0,
        bits: 0,
        next: 0,
    }
}

fn answered_value(r: Result<Option<ValueAt>, Fault>) -> BpNextValue
    ensures { result ≡ flat_value r }
{
    match r {
        Ok(Some(v)) => {
            let text = v.text;
            BpNextValue {
                refusal: 0,
                is_there: 1,
                place: 0,
                kind: v.kind,
                start: text.start,
                len: text.len,
                bits: v.bits,
                next: v.end,
            }
        }
        Ok(None) => without_value(0, 0),
        Err(f) => without_value(refusal::number(f.refusal), f.place),
    }
}

#[unsafe(no_mangle)]
pub extern "C" fn bp_next_value(bytes: &[u8], at: usize, end: usize) -> BpNextValue
    ensures { Answers bytes.now (as_told flat_value (next_value at end bytes.now)) result }
{
    let r = next_value_at(bytes, at, end);
    answered_value(r)
}
