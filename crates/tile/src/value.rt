// The message of a value, by its kind.
ghost use Rattle.std.specs.Prelude.{◌≡◌, true, length};
ghost use Rattle.promise.specs.Answers.{Gives};
ghost use Rattle.promise.specs.Puts.{put};
ghost use Rattle.table.specs.Values.{value_ok};
ghost use Rattle.tile.specs.Values.{value_message};
ghost use Rattle.tile.specs.Steps.{Writable};

use crate::text::{put_text, text_size};
use number::of_halves;
use table::Value;
use wire::field::{Field, ValueKind};
use wire::fixed::{put_fixed32, put_fixed64};
use wire::head::{head_size, put_varint_field, varint_field_size};
use wire::sint::zigzag;

pub(crate) fn value_size(texts: &[u8], kind: u32, low: u32, high: u32) -> usize
    requires { value_ok (length texts.now) kind low high ≡ true }
    ensures { result ≡ length (value_message texts.now kind low high) }
{
    if kind == Value::TEXT {
        return text_size(
            Field::Value(ValueKind::Text),
            texts,
            low as usize,
            high as usize,
        );
    }
    if kind == Value::FLOAT {
        return head_size(Field::Value(ValueKind::Float)) + 4;
    }
    if kind == Value::DOUBLE {
        return head_size(Field::Value(ValueKind::Double)) + 8;
    }
    if kind == Value::INT {
        return varint_field_size(Field::Value(ValueKind::Int), of_halves(low, high));
    }
    if kind == Value::UINT {
        return varint_field_size(Field::Value(ValueKind::Uint), of_halves(low, high));
    }
    if kind == Value::SINT {
        return varint_field_size(Field::Value(ValueKind::Sint), zigzag(of_halves(low, high)));
    }
    varint_field_size(Field::Value(ValueKind::Bool), low as u64)
}

pub(crate) fn put_value(texts: &[u8], kind: u32, low: u32, high: u32, out: &mut [u8]) -> usize
    requires { Writable (value_ok (length texts.now) kind low high ≡ true) (value_message texts.now kind low high) (length out.old) }
    ensures { Gives (put (value_message texts.now kind low high) out.old) result out.new }
{
    if kind == Value::TEXT {
        return put_text(
            Field::Value(ValueKind::Text),
            texts,
            low as usize,
            high as usize,
            out,
        );
    }
    if kind == Value::FLOAT {
        return put_fixed32(Field::Value(ValueKind::Float), low, out);
    }
    if kind == Value::DOUBLE {
        return put_fixed64(Field::Value(ValueKind::Double), of_halves(low, high), out);
    }
    if kind == Value::INT {
        return put_varint_field(Field::Value(ValueKind::Int), of_halves(low, high), out);
    }
    if kind == Value::UINT {
        return put_varint_field(Field::Value(ValueKind::Uint), of_halves(low, high), out);
    }
    if kind == Value::SINT {
        return put_varint_field(
            Field::Value(ValueKind::Sint),
            zigzag(of_halves(low, high)),
            out,
        );
    }
    put_varint_field(Field::Value(ValueKind::Bool), low as u64, out)
}
