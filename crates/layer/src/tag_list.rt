// A lent list of tags, five words each: where the key starts and how long it is, the value's kind, and then where its text starts and how long it is, or the
// low and the high half of its content. The texts stand in a lent list of bytes.
ghost use Rattle.std.specs.Prelude.{◌≡◌, true, ◌+◌, ◌≤◌, length};
ghost use Rattle.layer.specs.TagLists.{ok_at, tags_ok, short_at, tags_short, tag_at, tags_of, tag_utf8, tags_utf8, value_given, text_place};
ghost use Rattle.layer.specs.WholeSteps.{place_at};

use table::{Text, Value};
use utf8::is_utf8;

// Where the parts of a tag stand.
#[derive(Clone, Copy)]
pub(crate) struct Place {
    pub(crate) key: Text,
    pub(crate) value: Value,
    pub(crate) text: Text,
}

// A tag of the list is five words.
impl Place {
    pub(crate) const WORDS: usize = 5;

    // Where they stand, behind the key's start: the key's length, the value's kind, and the start and the length of its text or the halves of its content.
    pub(crate) const LEN: usize = 1;

    pub(crate) const KIND: usize = 2;

    pub(crate) const LOW: usize = 3;

    pub(crate) const HIGH: usize = 4;
}

// Whether five words are a tag whose texts lie within so many bytes.
fn tag_ok(t: &[u32; 5], bytes: usize) -> bool
    ensures { result ≡ ok_at bytes t.now 0 }
{
    let start = number::wide(t[0]);
    let len = number::wide(t[Place::LEN]);
    let value = [t[Place::KIND], t[Place::LOW], t[Place::HIGH]];
    runs::has_room(start, len, bytes) & table::values_in(&value, bytes)
}

// Whether every five words are a tag, and the texts of all lie within so many bytes.
pub(crate) fn is_tag_list(tags: &[u32], bytes: usize) -> bool
    ensures { result ≡ tags_ok bytes tags.now }
{
    let (list, rest) = tags.as_chunks::<5>();
    rest.is_empty() && list.iter().all(|t| tag_ok(t, bytes))
}

// The value of three words as its tag call makes it. Where a text stands is found when it is stored.
fn value_given(kind: u32, low: u32, high: u32) -> Value
    ensures { result ≡ value_given kind low high }
{
    if kind == Value::TEXT {
        return Value {
            kind: Value::TEXT,
            low: 0,
            high: 0,
        };
    }
    Value { kind, low, high }
}

// Where the text of three words stands. What is no text has an empty one.
fn text_of(kind: u32, low: u32, high: u32) -> Text
    ensures { result ≡ text_place kind low high }
{
    if kind == Value::TEXT {
        return Text {
            start: number::wide(low),
            len: number::wide(high),
        };
    }
    Text { start: 0, len: 0 }
}

// Whether neither the key nor the text of a tag's five words has more bytes than a text may have.
fn is_short(t: &[u32; 5]) -> bool
    ensures { result ≡ short_at t.now 0 }
{
    let key = number::wide(t[Place::LEN]);
    if !Text::may_have(key) {
        return false;
    }
    if t[Place::KIND] != Value::TEXT {
        return true;
    }
    let text = number::wide(t[Place::HIGH]);
    Text::may_have(text)
}

// The same of every tag of a list.
pub(crate) fn are_short(tags: &[u32]) -> bool
    ensures { result ≡ tags_short tags.now }
{
    let (list, _) = tags.as_chunks::<5>();
    list.iter().all(|t| is_short(t))
}

// Where the parts of the tag of the five words at index i stand.
pub(crate) fn place_at(tags: &[u32], i: usize) -> Place
    requires { i + 5 ≤ length tags.now }
    ensures { result ≡ place_at tags.now i }
{
    let start = number::wide(tags[i]);
    let len = number::wide(tags[i + Place::LEN]);
    let kind = tags[i + Place::KIND];
    let low = tags[i + Place::LOW];
    let high = tags[i + Place::HIGH];
    Place {
        key: Text { start, len },
        value: value_given(kind, low, high),
        text: text_of(kind, low, high),
    }
}

// Whether the key and the text of a tag's five words are UTF-8. What is no text has none to be asked.
fn is_tag_utf8(t: &[u32; 5], bytes: &[u8]) -> bool
    requires { ok_at (length bytes.now) t.now 0 ≡ true }
    ensures { result ≡ tag_utf8 (tag_at bytes.now t.now 0) }
{
    let a = number::wide(t[0]);
    let b = a + number::wide(t[Place::LEN]);
    if !is_utf8(&bytes[a..b]) {
        return false;
    }
    if t[Place::KIND] != Value::TEXT {
        return true;
    }
    let c = number::wide(t[Place::LOW]);
    let d = c + number::wide(t[Place::HIGH]);
    is_utf8(&bytes[c..d])
}

// The same of every tag of a list.
pub(crate) fn are_utf8(tags: &[u32], bytes: &[u8]) -> bool
    requires { tags_ok (length bytes.now) tags.now ≡ true }
    ensures { result ≡ tags_utf8 (tags_of bytes.now tags.now) }
{
    let (list, _) = tags.as_chunks::<5>();
    for t in list {
        if !is_tag_utf8(t, bytes) {
            return false;
        }
    }
    true
}
