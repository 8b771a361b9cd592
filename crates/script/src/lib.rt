// A tile script, read operation by operation: oracle/README.md, "Tile script". The script is a list of numbers, of which the first is the tile's extent.
#![tactic(auto)]

ghost use Rattle.std.specs.Prelude.{◌≡◌, ◌≤◌, length};
ghost use Rattle.script.specs.Script.{creates, opens, sets, tags, operation, text_of, words_of};

mod texts; // a text: its length, then its bytes
mod values; // a value: its kind, then its content

use crate::texts::read_text;
use crate::values::read_value;
use number::wide;

// A part of the script: a text starts at a word and has so many bytes, a run of words has so many words.
#[derive(Clone, Copy)]
pub struct Part {
    pub start: usize,
    pub len: usize,
}

// A value to tag with; its kind's number is that of a layer's values. A float and a double are given by their bits.
#[derive(Clone, Copy)]
pub enum Value {
    Text(Part),
    Float(u32),
    Double(u64),
    Int(i64),
    Uint(u64),
    Sint(i64),
    Bool(bool),
}

// One operation. Creating says whether the layer is strict.
#[derive(Clone, Copy)]
pub enum Op {
    Create(u32, Part, bool),
    Open(u32, Part),
    SetId(u64),
    Tag(Part, Value),
    Close,
    Abandon,
    Add,
}

// The operations, by the script's numbers.
impl Op {
    pub const CREATE: u32 = 1;

    pub const OPEN: u32 = 2;

    pub const SET_ID: u32 = 3;

    pub const TAG: u32 = 4;

    pub const CLOSE: u32 = 5;

    pub const ABANDON: u32 = 6;

    pub const ADD: u32 = 7;

    pub const CREATE_STRICT: u32 = 8;
}

// Creating, strict or not: extent, name.
#[tactic(auto, unfolding(crate::specs::Script::creates))]
fn read_create(numbers: &[u32], at: usize, strict: bool) -> Option<(Op, usize)>
    ensures { result ≡ creates strict numbers.now at }
{
    let extent = *numbers.get(at)?;
    let (name, next) = read_text(numbers, at + 1)?;
    Some((Op::Create(extent, name, strict), next))
}

// Opening: kind, word count, words.
#[tactic(auto, unfolding(crate::specs::Script::opens))]
fn read_open(numbers: &[u32], at: usize) -> Option<(Op, usize)>
    requires { at ≤ length numbers.now }
    ensures { result ≡ opens numbers.now at }
{
    if numbers.len() - at < 2 {
        return None;
    }
    let len = wide(numbers[at + 1]);
    let start = at + 2;
    if numbers.len() - start < len {
        return None;
    }
    Some((Op::Open(numbers[at], Part { start, len }), start + len))
}

// Setting the id: low half, high half.
#[tactic(auto, unfolding(crate::specs::Script::sets))]
fn read_id(numbers: &[u32], at: usize) -> Option<(Op, usize)>
    requires { at ≤ length numbers.now }
    ensures { result ≡ sets numbers.now at }
{
    if numbers.len() - at < 2 {
        return None;
    }
    Some((
        Op::SetId(number::of_halves(numbers[at], numbers[at + 1])),
        at + 2,
    ))
}

// Tagging: key, value.
#[tactic(auto, unfolding(crate::specs::Script::tags))]
fn read_tag(numbers: &[u32], at: usize) -> Option<(Op, usize)>
    ensures { result ≡ tags numbers.now at }
{
    let (key, next) = read_text(numbers, at)?;
    read_value(key, numbers, next)
}

// The operation that begins at a place of the script's numbers, and where the next one begins; none where nothing can be read.
#[tactic(auto, unfolding(crate::specs::Script::operation))]
pub fn read_op(numbers: &[u32], at: usize) -> Option<(Op, usize)>
    ensures { result ≡ operation numbers.now at }
{
    let number = *numbers.get(at)?;
    let from = at + 1;
    match number {
        Op::CREATE => read_create(numbers, from, false),
        Op::OPEN => read_open(numbers, from),
        Op::SET_ID => read_id(numbers, from),
        Op::TAG => read_tag(numbers, from),
        Op::CLOSE => Some((Op::Close, from)),
        Op::ABANDON => Some((Op::Abandon, from)),
        Op::ADD => Some((Op::Add, from)),
        Op::CREATE_STRICT => read_create(numbers, from, true),
        _ => None,
    }
}

// The bytes of a text, empty where it runs past the script's bytes.
pub fn text(bytes: &[u8], p: Part) -> &[u8]
    ensures { result.now ≡ text_of bytes.now p }
{
    let start = p.start;
    let len = p.len;
    if bytes.len() / 4 < start {
        return &bytes[..0];
    }
    let from = 4 * start;
    if bytes.len() - from < len {
        return &bytes[..0];
    }
    let to = from + len;
    &bytes[from..to]
}

// The words of a run, empty where it runs past the script's numbers.
pub fn words(numbers: &[u32], p: Part) -> &[u32]
    ensures { result.now ≡ words_of numbers.now p }
{
    let from = p.start;
    let len = p.len;
    if numbers.len() < from {
        return &numbers[..0];
    }
    if numbers.len() - from < len {
        return &numbers[..0];
    }
    let to = from + len;
    &numbers[from..to]
}
