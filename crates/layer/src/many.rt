// Many whole features in one call. STATE is checked once for all of them, since an accepted feature keeps it, so the layer is read once and not once a feature.
ghost use Rattle.std.specs.Prelude.{◌≡◌, ◌+◌, ◌≤◌, length};
ghost use Rattle.promise.specs.Lent.{mutable};
ghost use Rattle.layer.specs.Many.{head_at, heads_ok, add_indexed};
ghost use Rattle.layer.specs.WholeSteps.{all_read};
ghost use Rattle.layer.specs.Lending.{Adds};

use crate::Layer;
use crate::state::is_valid;
use crate::whole_feature::{Head, add_known};
use refusal::{Refusal, Refused};

// What adding many answers, accepted or not: the layer after them, and how many were accepted.
pub type Added = Result<(Layer, usize), Refused<(Layer, usize)>>;

// The head of the first four of the six words at index i.
fn head_at(heads: &[u32], i: usize) -> Head
    requires { i + 6 ≤ length heads.now }
    ensures { result ≡ head_at heads.now i }
{
    Head {
        kind: heads[i],
        has_id: heads[i + Head::MARK] == 1,
        id: number::of_halves(heads[i + Head::LOW], heads[i + Head::HIGH]),
    }
}

// Whether every six words are a head, and the features have so many geometry words and tag words, no more and no less.
fn is_head_list(heads: &[u32], words: usize, tags: usize) -> bool
    ensures { result ≡ heads_ok words tags heads.now }
{
    let (list, rest) = heads.as_chunks::<6>();
    let mut w = words;
    let mut t = tags;
    for h in list {
        let a = number::wide(h[Head::GEOMETRY]);
        let b = number::wide(h[Head::TAGS]);
        if !((h[Head::MARK] <= 1) & ((a <= w) & (b <= t))) {
            return false;
        }
        w -= a;
        t -= b;
    }
    rest.is_empty() & ((w == 0) & (t == 0))
}

// The answer behind the last head. Where there was none, no feature has asked STATE.
fn all_read(stands: bool, s: Layer, n: usize) -> Added
    ensures { result ≡ all_read stands s n }
{
    if stands {
        return Ok((s, n));
    }
    Err(Refused {
        refusal: Refusal::State,
        kept: (s, n),
    })
}

// Whole features one after the other, up to the first that is refused. A feature's head is six words: its kind, its id mark (0 or 1), the low and the high half
// of its id, how many geometry words it has and how many tag words; these stand in words and in tags, those of one feature behind those of the one before.
// A list of two words for each entry that the keys have room for makes looking up a key quick, and so for the values; what it holds before does not matter.
pub fn add_features(
    s: Layer,
    heads: &[u32],
    words: &[u32],
    tags: &[u32],
    bytes: &[u8],
    keys: &mut [u32],
    values: &mut [u32],
    texts: &mut [u8],
    features: &mut [u32],
    ki: &mut [u32],
    vi: &mut [u32],
) -> Added
    ensures { Adds add_indexed s result heads words tags bytes (mutable keys) (mutable values) (mutable texts) (mutable features) (mutable ki) (mutable vi) }
{
    if !is_head_list(heads, words.len(), tags.len()) {
        return Err(Refused {
            refusal: Refusal::Job,
            kept: (s, 0),
        });
    }
    let stands = is_valid(s, &keys[..], &values[..], &texts[..], &features[..]);
    // A `while`: each turn takes as many words and tags as its head says.
    let mut t = s;
    let mut i = 0;
    let mut w = 0;
    let mut g = 0;
    let mut n = 0;
    while i < heads.len() {
        let a = w + number::wide(heads[i + Head::GEOMETRY]);
        let b = g + number::wide(heads[i + Head::TAGS]);
        match add_known(
            t,
            stands,
            0 < n,
            head_at(heads, i),
            &words[w..a],
            &tags[g..b],
            bytes,
            keys,
            values,
            texts,
            features,
            ki,
            vi,
        ) {
            Ok(u) => t = u,
            Err(e) => {
                return Err(Refused {
                    refusal: e.refusal,
                    kept: (t, n),
                });
            }
        }
        i += Head::WORDS;
        w = a;
        g = b;
        n += 1;
    }
    all_read(stands, t, n)
}
