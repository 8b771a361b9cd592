// The texts, keys and values of a layer, in lent lists (in the Rust: the key and value maps of tile.rs). A key is two words, where its text
// starts and how long it is; a value three, its kind and then the same, or its content's low and high half. Every function is told the used part of
// a list alone, so what stands beyond it cannot matter. Looking an entry up reads the entries before it, and the texts of those of its length.
#![tactic(auto)]

ghost use Rattle.std.specs.Prelude.{◌≡◌};
ghost use Rattle.table.specs.Texts.{short_text, same_text};
ghost use Rattle.table.specs.Keys.{find_key, keys_in};
ghost use Rattle.table.specs.Values.{is_zero, same_content, same_value, find_value, value_ok, values_in};

use number::wide;
use runs::has_room;

// Where a text stands in the list of texts.
#[derive(Clone, Copy)]
pub struct Text {
    pub start: usize,
    pub len: usize,
}

impl Text {
    pub const MAX_BYTES: usize = 1024;

    // Whether a text may have so many bytes.
    pub fn may_have(len: usize) -> bool
        ensures { result ≡ short_text len }
    {
        len <= Text::MAX_BYTES
    }
}

// The three words of a value. Where the kind is 1 the text stands beside it, and the other two words are found when it is stored.
#[derive(Clone, Copy)]
pub struct Value {
    pub kind: u32,
    pub low: u32,
    pub high: u32,
}

// The kinds of values, by document 01's numbers.
impl Value {
    pub const TEXT: u32 = 1;

    pub const FLOAT: u32 = 2;

    pub const DOUBLE: u32 = 3;

    pub const INT: u32 = 4;

    pub const UINT: u32 = 5;

    pub const SINT: u32 = 6;

    pub const BOOL: u32 = 7;
}

// Whether the text of len bytes at start is key. Put into its callers: of most entries that are looked through the length alone is another.
#[inline(always)]
pub fn same_text(texts: &[u8], start: usize, len: usize, key: &[u8]) -> bool
    ensures { result ≡ same_text texts.now start len key.now }
{
    if len != key.len() || texts.len() < start || texts.len() - start < len {
        return false;
    }
    &texts[start..start + len] == key
}

// The index of the first key whose text is key.
pub fn key_pos(keys: &[u32], texts: &[u8], key: &[u8]) -> Option<usize>
    ensures { result ≡ find_key 0 keys.now texts.now key.now }
{
    let (entries, _) = keys.as_chunks::<2>();
    entries
        .iter()
        .position(|e| same_text(texts, wide(e[0]), wide(e[1]), key))
}

// Whether the two words are a float or a double that is zero, of either sign.
fn is_zero(kind: u32, low: u32, high: u32) -> bool
    ensures { result ≡ is_zero kind low high }
{
    if kind == Value::FLOAT {
        return (low % 2147483648 == 0) & (high == 0);
    }
    if kind == Value::DOUBLE {
        return (low == 0) & (high % 2147483648 == 0);
    }
    false
}

// Whether two values of one kind, which is no text, have the same content.
fn same_content(kind: u32, low: u32, high: u32, low2: u32, high2: u32) -> bool
    ensures { result ≡ same_content kind low high low2 high2 }
{
    if (low == low2) & (high == high2) {
        return true;
    }
    is_zero(kind, low, high) & is_zero(kind, low2, high2)
}

// Whether the value stored as (kind, low, high) is v, or the text beside it.
#[inline(always)]
pub fn same_value(texts: &[u8], kind: u32, low: u32, high: u32, v: Value, text: &[u8]) -> bool
    ensures { result ≡ same_value texts.now kind low high v text.now }
{
    if kind != v.kind {
        return false;
    }
    if kind == Value::TEXT {
        let start = wide(low);
        let len = wide(high);
        return same_text(texts, start, len, text);
    }
    same_content(kind, low, high, v.low, v.high)
}

// The index of the first value that is v, or the text beside it.
pub fn val_pos(values: &[u32], texts: &[u8], v: Value, text: &[u8]) -> Option<usize>
    ensures { result ≡ find_value 0 values.now texts.now v text.now }
{
    let (entries, _) = values.as_chunks::<3>();
    entries
        .iter()
        .position(|e| same_value(texts, e[0], e[1], e[2], v, text))
}

// Whether the text of every key lies within so many bytes.
pub fn keys_in(keys: &[u32], bytes: usize) -> bool
    ensures { result ≡ keys_in bytes keys.now }
{
    let (entries, rest) = keys.as_chunks::<2>();
    rest.is_empty()
        && entries
            .iter()
            .all(|e| has_room(wide(e[0]), wide(e[1]), bytes))
}

// Whether the three words are a value, its text, if it is one, within so many bytes.
fn value_ok(bytes: usize, kind: u32, low: u32, high: u32) -> bool
    ensures { result ≡ value_ok bytes kind low high }
{
    if kind == Value::TEXT {
        let start = wide(low);
        let len = wide(high);
        return has_room(start, len, bytes);
    }
    if kind == Value::FLOAT {
        return high == 0;
    }
    if kind == Value::BOOL {
        return (low <= 1) & (high == 0);
    }
    (Value::DOUBLE <= kind) & (kind <= Value::SINT)
}

// Whether every three words are a value, and the text of every text lies within so many bytes.
pub fn values_in(values: &[u32], bytes: usize) -> bool
    ensures { result ≡ values_in bytes values.now }
{
    let (entries, rest) = values.as_chunks::<3>();
    rest.is_empty() && entries.iter().all(|e| value_ok(bytes, e[0], e[1], e[2]))
}
