// A layer's keys, of two words each: where the text starts, and its length.
ghost use Rattle.std.specs.Prelude.{◌≡◌, true, length};
ghost use Rattle.promise.specs.Answers.{Gives};
ghost use Rattle.wire.specs.declared.field.Field.TheVariants.{LayerKey};
ghost use Rattle.promise.specs.Puts.{put};
ghost use Rattle.table.specs.Texts.{inside};
ghost use Rattle.table.specs.Keys.{keys_in};
ghost use Rattle.tile.specs.Texts.{text_field};
ghost use Rattle.tile.specs.Entries.{key_fields};
ghost use Rattle.tile.specs.Steps.{Writable, max_size};

use crate::text::{put_text, text_size};
use wire::field::Field;

fn field_size(texts: &[u8], start: u32, len: u32) -> usize
    requires { inside (length texts.now) start len ≡ true }
    ensures { result ≡ length (text_field LayerKey texts.now start len) }
{
    text_size(Field::LayerKey, texts, start as usize, len as usize)
}

fn put_field(texts: &[u8], start: u32, len: u32, out: &mut [u8]) -> usize
    requires { Writable (inside (length texts.now) start len ≡ true) (text_field LayerKey texts.now start len) (length out.old) }
    ensures { Gives (put (text_field LayerKey texts.now start len) out.old) result out.new }
{
    put_text(Field::LayerKey, texts, start as usize, len as usize, out)
}

pub(crate) fn keys_size(texts: &[u8], keys: &[u32]) -> usize
    requires { Writable (keys_in (length texts.now) keys.now ≡ true) (key_fields texts.now keys.now) max_size }
    ensures { result ≡ length (key_fields texts.now keys.now) }
{
    let (entries, _) = keys.as_chunks::<2>();
    let mut size = 0;
    for e in entries {
        let more = field_size(texts, e[0], e[1]);
        size += more;
    }
    size
}

pub(crate) fn put_keys(texts: &[u8], keys: &[u32], out: &mut [u8]) -> usize
    requires { Writable (keys_in (length texts.now) keys.now ≡ true) (key_fields texts.now keys.now) (length out.old) }
    ensures { Gives (put (key_fields texts.now keys.now) out.old) result out.new }
{
    let (entries, _) = keys.as_chunks::<2>();
    let mut at = 0;
    for e in entries {
        let count = put_field(texts, e[0], e[1], &mut out[at..]);
        at += count;
    }
    at
}
