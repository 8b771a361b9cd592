// A text of a layer as a field: a name, a key, or a value's content.
ghost use Rattle.std.specs.Prelude.{◌≡◌, true, length};
ghost use Rattle.promise.specs.Answers.{Gives};
ghost use Rattle.wire.specs.Fields.{delimited};
ghost use Rattle.promise.specs.Puts.{put};
ghost use Rattle.table.specs.Texts.{inside};
ghost use Rattle.tile.specs.Texts.{text_field};
ghost use Rattle.tile.specs.Steps.{Writable};

use wire::field::Field;
use wire::head::varint_field_size;
use wire::run::put_bytes;

fn bytes_size(field: Field, bytes: &[u8]) -> usize
    ensures { result ≡ length (delimited field bytes.now) }
{
    let size = bytes.len();
    varint_field_size(field, size as u64) + size
}

pub(crate) fn text_size(field: Field, texts: &[u8], start: usize, len: usize) -> usize
    requires { inside (length texts.now) start len ≡ true }
    ensures { result ≡ length (text_field field texts.now start len) }
{
    let end = start + len;
    bytes_size(field, &texts[start..end])
}

pub(crate) fn put_text(
    field: Field,
    texts: &[u8],
    start: usize,
    len: usize,
    out: &mut [u8],
) -> usize
    requires { Writable (inside (length texts.now) start len ≡ true) (text_field field texts.now start len) (length out.old) }
    ensures { Gives (put (text_field field texts.now start len) out.old) result out.new }
{
    let end = start + len;
    put_bytes(field, &texts[start..end], out)
}
