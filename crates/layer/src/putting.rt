// The steps of a tag that was looked up: the figures after it, and then the key, the value and the two words of the tag.
ghost use Rattle.std.specs.Prelude.{◌≡◌, ◌≤◌, length};
ghost use Rattle.promise.specs.Lent.{mutable};
ghost use Rattle.table.specs.Texts.{max_bytes};
ghost use Rattle.layer.specs.Held.{max_texts};
ghost use Rattle.layer.specs.Calls.{grown_by, key_words, stored_as, value_words};
ghost use Rattle.layer.specs.Steps.{Grows, Small, EntryRoom, PairRoom, TagRoom, pair_laid, laid_tag};
ghost use Rattle.layer.specs.Lending.{entered, left, given, Lays, lists};

use crate::Figures;
use records::Record;
use runs::lay;
use table::Value;

fn more_of(f: Option<usize>, n: usize) -> usize
    ensures { Grows f n result }
{
    match f {
        Some(_) => 0,
        None => n,
    }
}

// The figures after a tag, reckoned without a limit on room.
pub(crate) fn grown(
    u: Figures,
    kf: Option<usize>,
    vf: Option<usize>,
    key: usize,
    text: usize,
) -> Figures
    requires { Small u key text }
    ensures { result ≡ grown_by u kf vf key text }
{
    Figures {
        keys: u.keys + more_of(kf, 1),
        values: u.values + more_of(vf, 1),
        texts: u.texts + more_of(kf, key) + more_of(vf, text),
        features: u.features + 2,
    }
}

// A key that was not found goes last, and so does its text.
fn put_key(
    f: Option<usize>,
    key: &[u8],
    at: usize,
    start: usize,
    keys: &mut [u32],
    texts: &mut [u8],
)
    requires { EntryRoom f 2 (length key.now) at start (length keys.old) (length texts.old) }
    ensures { Lays f (key_words start key.now) key.now at start (mutable keys) (mutable texts) }
{
    match f {
        Some(_) => {}
        None => {
            let words = [start as u32, key.len() as u32];
            lay(&words, keys, at);
            lay(key, texts, start);
        }
    }
}

// The words that a value is stored as, where its text, if it is one, starts at start.
fn stored_as(start: usize, v: Value, len: usize) -> Value
    requires { (start ≤ max_texts) × (len ≤ max_bytes) }
    ensures { result ≡ stored_as start v len }
{
    if v.kind == Value::TEXT {
        return Value {
            kind: Value::TEXT,
            low: start as u32,
            high: len as u32,
        };
    }
    v
}

// A value that was not found goes last, and so does its text.
fn put_value(
    f: Option<usize>,
    v: Value,
    text: &[u8],
    at: usize,
    start: usize,
    values: &mut [u32],
    texts: &mut [u8],
)
    requires { EntryRoom f 3 (length text.now) at start (length values.old) (length texts.old) }
    ensures { Lays f (value_words start v text.now) text.now at start (mutable values) (mutable texts) }
{
    match f {
        Some(_) => {}
        None => {
            let w = stored_as(start, v, text.len());
            let words = [w.kind, w.low, w.high];
            lay(&words, values, at);
            lay(text, texts, start);
        }
    }
}

// The two words of a tag go last, and the record at index at counts them.
fn put_pair(at: usize, end: usize, k: usize, v: usize, features: &mut [u32])
    requires { PairRoom at end k v features.old }
    ensures { features.new ≡ pair_laid at end k v features.old }
{
    let count = features[at + Record::TAGS];
    let words = [k as u32, v as u32];
    lay(&words, features, end);
    features[at + Record::TAGS] = count + 2;
}

// A tag that has room: the key, then the value, then the two words.
#[inline(always)]
pub(crate) fn put_tag(
    u: Figures,
    o: Figures,
    kf: Option<usize>,
    vf: Option<usize>,
    key: &[u8],
    v: Value,
    text: &[u8],
    keys: &mut [u32],
    values: &mut [u32],
    texts: &mut [u8],
    features: &mut [u32],
)
    requires { TagRoom u o kf vf (length key.now) (length text.now) (lists keys.old values.old texts.old features.old) }
    ensures { left (mutable keys) (mutable values) (mutable texts) (mutable features) ≡ laid_tag u o kf vf (given key v text) (entered (mutable keys) (mutable values) (mutable texts) (mutable features)) }
{
    let k = u.keys * 2;
    let e = u.values * 3;
    let t = u.texts;
    put_key(kf, key, k, t, keys, texts);
    let start = t + more_of(kf, key.len());
    put_value(vf, v, text, e, start, values, texts);
    let ki = kf.unwrap_or(u.keys);
    let vi = vf.unwrap_or(u.values);
    put_pair(o.features, u.features, ki, vi, features);
}
