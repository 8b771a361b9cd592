// The values of a script: a kind, then the content.
ghost use Rattle.std.specs.Prelude.{◌≡◌, ◌≤◌, length};
ghost use Rattle.script.specs.Script.{float_at, long_value, long_at, bool_at, string_at, content, valued};

use crate::texts::read_text;
use crate::{Op, Part, Value};
use number::{of_halves, signed64};

// A float: one word.
#[tactic(auto, unfolding(crate::specs::Script::float_at))]
fn read_float(key: Part, numbers: &[u32], at: usize) -> Option<(Op, usize)>
    ensures { result ≡ float_at key numbers.now at }
{
    let bits = *numbers.get(at)?;
    Some((Op::Tag(key, Value::Float(bits)), at + 1))
}

// The value of two words: a double, an int or a uint, else a sint.
fn long_value(kind: u32, bits: u64) -> Value
    ensures { result ≡ long_value kind bits }
{
    match kind {
        table::Value::DOUBLE => Value::Double(bits),
        table::Value::INT => Value::Int(signed64(bits)),
        table::Value::UINT => Value::Uint(bits),
        _ => Value::Sint(signed64(bits)),
    }
}

// A double, an int, a uint or a sint: low half, high half.
#[tactic(auto, unfolding(crate::specs::Script::long_at))]
fn read_long(key: Part, kind: u32, numbers: &[u32], at: usize) -> Option<(Op, usize)>
    requires { at ≤ length numbers.now }
    ensures { result ≡ long_at key kind numbers.now at }
{
    if numbers.len() - at < 2 {
        return None;
    }
    let v = long_value(kind, of_halves(numbers[at], numbers[at + 1]));
    Some((Op::Tag(key, v), at + 2))
}

// A bool: one word 0 or 1.
#[tactic(auto, unfolding(crate::specs::Script::bool_at))]
fn read_bool(key: Part, numbers: &[u32], at: usize) -> Option<(Op, usize)>
    ensures { result ≡ bool_at key numbers.now at }
{
    let bit = *numbers.get(at)?;
    if 1 < bit {
        return None;
    }
    Some((Op::Tag(key, Value::Bool(bit == 1)), at + 1))
}

// A value that is a text.
#[tactic(auto, unfolding(crate::specs::Script::string_at))]
fn read_string(key: Part, numbers: &[u32], at: usize) -> Option<(Op, usize)>
    ensures { result ≡ string_at key numbers.now at }
{
    let (text, next) = read_text(numbers, at)?;
    Some((Op::Tag(key, Value::Text(text)), next))
}

// The content of a kind; those from double to sint have two words.
fn read_content(key: Part, kind: u32, numbers: &[u32], at: usize) -> Option<(Op, usize)>
    requires { at ≤ length numbers.now }
    ensures { result ≡ content key kind numbers.now at }
{
    match kind {
        table::Value::TEXT => read_string(key, numbers, at),
        table::Value::FLOAT => read_float(key, numbers, at),
        table::Value::BOOL => read_bool(key, numbers, at),
        table::Value::DOUBLE..=table::Value::SINT => read_long(key, kind, numbers, at),
        _ => None,
    }
}

// A value: its kind, then its content.
#[tactic(auto, unfolding(crate::specs::Script::valued))]
pub(crate) fn read_value(key: Part, numbers: &[u32], at: usize) -> Option<(Op, usize)>
    ensures { result ≡ valued key numbers.now at }
{
    let kind = *numbers.get(at)?;
    read_content(key, kind, numbers, at + 1)
}
