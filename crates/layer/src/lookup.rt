// A key or a value looked up by an index that the caller lends beside its table, where that serves; else by scan.
ghost use Rattle.std.specs.Prelude.{◌≡◌};
ghost use Rattle.layer.specs.Lookup.{key_by, value_by, noted};

use table::Value;

// The key's entry.
pub(crate) fn find_key(
    buckets: &[u32],
    room: usize,
    keys: &[u32],
    texts: &[u8],
    key: &[u8],
    hash: usize,
) -> Option<usize>
    ensures { result ≡ key_by buckets.now room keys.now texts.now key.now hash }
{
    if index::serves(buckets.len(), room) {
        return index::key_pos(buckets, keys, texts, key, hash);
    }
    table::key_pos(keys, texts, key)
}

// The value's entry.
pub(crate) fn find_value(
    buckets: &[u32],
    room: usize,
    values: &[u32],
    texts: &[u8],
    v: Value,
    text: &[u8],
    hash: usize,
) -> Option<usize>
    ensures { result ≡ value_by buckets.now room values.now texts.now v text.now hash }
{
    if index::serves(buckets.len(), room) {
        return index::val_pos(buckets, values, texts, v, text, hash);
    }
    table::val_pos(values, texts, v, text)
}

// An entry that was not found is entry n, and the index is told so where it serves.
pub(crate) fn note(buckets: &mut [u32], room: usize, f: Option<usize>, n: usize, hash: usize)
    ensures { buckets.new ≡ noted buckets.old room f n hash }
{
    if !index::serves(buckets.len(), room) {
        return;
    }
    match f {
        Some(_) => {}
        None => {
            index::push(buckets, n, hash);
        }
    }
}
