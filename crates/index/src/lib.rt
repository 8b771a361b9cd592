// An index beside the scan of crate `table`: a list that the caller lends, by which a key or a value is looked up among the entries of one bucket alone. It
// is proved to answer as the scan does where it is the index of the entries (`Indexes`). A list that holds anything else may miss an entry, or find a later one
// that is the same.
#![tactic(auto)]

ghost use Rattle.std.specs.Prelude.{◌≡◌, cond, ◌≤◌, length};
ghost use Rattle.table.specs.Texts.{text_of};
ghost use Rattle.index.specs.Hashes.{hash_text, mixed, hash_value, hash_stored};
ghost use Rattle.index.specs.Chains.{serves, cleared, pushed, walk, found_at};
ghost use Rattle.index.specs.Entries.{key_at, built_keys, walked_key, value_at, built_values, walked_value};
ghost use Rattle.index.specs.Steps.{end_in, Ahead};

use number::wide;
use table::{Value, same_text, same_value};

// ---- the number that chooses a bucket
// The number of a text.
pub fn hash_text(text: &[u8]) -> usize
    ensures { result ≡ hash_text text.now }
{
    let mut acc = 0;
    for &b in text {
        acc = (acc * 16777619 + usize::from(b)) % 4294967296;
    }
    acc
}

// Where the text of len bytes at start ends, or all bytes do.
fn end_of(bytes: usize, start: usize, len: usize) -> usize
    requires { start ≤ bytes }
    ensures { result ≡ end_in bytes start len }
{
    start + len.min(bytes - start)
}

// The number of the text of len bytes at start, or of what there is of it.
fn hash_part(texts: &[u8], start: usize, len: usize) -> usize
    ensures { result ≡ hash_text (text_of texts.now start len) }
{
    if texts.len() < start {
        return 0;
    }
    let end = end_of(texts.len(), start, len);
    hash_text(&texts[start..end])
}

fn mix(kind: u32, low: u32, high: u32) -> usize
    ensures { result ≡ mixed kind low high }
{
    let k = wide(kind);
    let a = wide(low % 2147483648);
    let b = wide(high % 2147483648);
    (k + a + b * 31) * 82952543 / 65536
}

// The number of v, or of the text beside it.
pub fn hash_value(v: Value, text: &[u8]) -> usize
    ensures { result ≡ hash_value v text.now }
{
    if v.kind == Value::TEXT {
        return hash_text(text);
    }
    mix(v.kind, v.low, v.high)
}

// The number of the value stored as these three words.
fn hash_stored(texts: &[u8], kind: u32, low: u32, high: u32) -> usize
    ensures { result ≡ hash_stored texts.now kind low high }
{
    if kind == Value::TEXT {
        let start = wide(low);
        let len = wide(high);
        return hash_part(texts, start, len);
    }
    mix(kind, low, high)
}

// ---- what changes an index
// Whether an index of so many words is used for a table with room for so many entries.
pub fn serves(words: usize, room: usize) -> bool
    ensures { result ≡ serves words room }
{
    0 < words / 2 && room <= words / 2
}

// An index of no entries.
pub fn clear(index: &mut [u32])
    ensures { index.new ≡ cleared index.old }
{
    index.fill(0);
}

// Entry n, of this number, goes to the front of its bucket.
pub fn push(index: &mut [u32], n: usize, hash: usize)
    ensures { index.new ≡ pushed index.old n hash }
{
    let slots = index.len() / 2;
    if slots <= n || 4294967295 <= n {
        return;
    }
    let b = hash % slots;
    let head = index[b];
    index[slots + n] = head;
    index[b] = (n + 1) as u32;
}

// The index of all keys, built anew.
pub fn build_keys(index: &mut [u32], keys: &[u32], texts: &[u8])
    ensures { index.new ≡ built_keys index.old keys.now texts.now }
{
    clear(index);
    for j in 0..keys.len() / 2 {
        let start = wide(keys[j * 2]);
        let len = wide(keys[j * 2 + 1]);
        let h = hash_part(texts, start, len);
        push(index, j, h);
    }
}

// The index of all values, built anew.
pub fn build_values(index: &mut [u32], values: &[u32], texts: &[u8])
    ensures { index.new ≡ built_values index.old values.now texts.now }
{
    clear(index);
    for j in 0..values.len() / 3 {
        let h = hash_stored(texts, values[j * 3], values[j * 3 + 1], values[j * 3 + 2]);
        push(index, j, h);
    }
}

// ---- looking up
// 1 + the first key of the bucket whose head is given that is key, or 0. Links go down: what does not ends the bucket.
fn walk_keys(
    index: &[u32],
    keys: &[u32],
    texts: &[u8],
    key: &[u8],
    limit: usize,
    head: usize,
) -> usize
    requires { Ahead limit (length index.now) 2 (length keys.now) }
    ensures { result ≡ walk index.now (key_at keys.now texts.now key.now) limit head 0 }
{
    let slots = index.len() / 2;
    let mut below = limit;
    let mut cur = head;
    let mut best = 0;
    // A `while`: each entry has the link to the next one.
    while 0 < cur && cur <= below {
        let j = cur - 1;
        let start = wide(keys[j * 2]);
        let len = wide(keys[j * 2 + 1]);
        if same_text(texts, start, len, key) {
            best = cur;
        }
        below = j;
        cur = wide(index[slots + j]);
    }
    best
}

// The index of the first key that is key, as far as the lent index knows.
pub fn key_pos(index: &[u32], keys: &[u32], texts: &[u8], key: &[u8], hash: usize) -> Option<usize>
    ensures { result ≡ walked_key index.now keys.now texts.now key.now hash }
{
    let slots = index.len() / 2;
    if slots == 0 {
        return None;
    }
    let limit = (keys.len() / 2).min(slots);
    let head = wide(index[hash % slots]);
    walk_keys(index, keys, texts, key, limit, head).checked_sub(1)
}

// 1 + the first value of the bucket whose head is given that is v, or the text beside it, or 0.
fn walk_values(
    index: &[u32],
    values: &[u32],
    texts: &[u8],
    v: Value,
    text: &[u8],
    limit: usize,
    head: usize,
) -> usize
    requires { Ahead limit (length index.now) 3 (length values.now) }
    ensures { result ≡ walk index.now (value_at values.now texts.now v text.now) limit head 0 }
{
    let slots = index.len() / 2;
    let mut below = limit;
    let mut cur = head;
    let mut best = 0;
    // A `while`: each entry has the link to the next one.
    while 0 < cur && cur <= below {
        let j = cur - 1;
        let i = j * 3;
        if same_value(texts, values[i], values[i + 1], values[i + 2], v, text) {
            best = cur;
        }
        below = j;
        cur = wide(index[slots + j]);
    }
    best
}

// The index of the first value that is v, or the text beside it, as far as the lent index knows.
pub fn val_pos(
    index: &[u32],
    values: &[u32],
    texts: &[u8],
    v: Value,
    text: &[u8],
    hash: usize,
) -> Option<usize>
    ensures { result ≡ walked_value index.now values.now texts.now v text.now hash }
{
    let slots = index.len() / 2;
    if slots == 0 {
        return None;
    }
    let limit = (values.len() / 3).min(slots);
    let head = wide(index[hash % slots]);
    walk_values(index, values, texts, v, text, limit, head).checked_sub(1)
}
