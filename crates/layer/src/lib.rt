// A layer and its open feature (in the Rust: Layer and Feature of tile.rs). The layer's own record goes in and comes back by value; keys, values, texts
// and feature records stand in four lent lists, of which the record says how much is used.
// What a call costs: its STATE check reads the used part of every list once, so each call costs what the layer holds, and n features made by single calls
// cost about n times that. Whole features (`whole_feature`, `many`) ask it once.
#![tactic(auto)]

pub mod state; // the STATE check
pub mod feature; // opening, marking, completing and abandoning a feature
pub mod tags; // a tag, one call for each kind of value
pub mod asking; // the number of features and of tags, the name's place
pub mod whole_feature; // a whole feature in one call
pub mod many; // many whole features in one call
mod value; // the value of a tag
mod putting; // the steps of a tag
mod lookup; // looking up by an index
mod tag_list; // a lent list of tags
mod filling; // putting the tags of a list
mod indexes; // building the indexes
mod need; // whether a whole feature has room
mod once; // whether a strict layer takes a key

ghost use Rattle.std.specs.Prelude.{◌≡◌, true};
ghost use Rattle.promise.specs.Answers.{Gives};
ghost use Rattle.layer.specs.Held.{room_of, fits};
ghost use Rattle.layer.specs.Steps.{caps};
ghost use Rattle.layer.specs.Answers.{said_created};
ghost use Rattle.layer.specs.Calls.{is_shut, created, chosen, created_strict};

use number::smaller;
use refusal::{Refusal, Refused};
use table::Text;

// How much of each list is used: keys and values in entries, texts in bytes, features in words.
#[derive(Clone, Copy)]
pub struct Figures {
    pub keys: usize,
    pub values: usize,
    pub texts: usize,
    pub features: usize,
}

// The name is the first text, and so long. A strict layer takes no key twice in a feature.
#[derive(Clone, Copy)]
pub struct Layer {
    pub extent: u32,
    pub strict: bool,
    pub name: usize,
    pub used: Figures,
    pub feature: Option<Figures>, // the figures at opening, where a feature is open
}

// What a call answers that changes a layer: the layer after it, or the refusal and the layer as it was given.
pub type Changed = Result<Layer, Refused<Layer>>;

impl Layer {
    pub const MAX_KEYS: usize = 65536;

    pub const MAX_VALUES: usize = 65536;

    pub const MAX_TEXTS: usize = 4294967295;

    pub const MAX_FEATURE_WORDS: usize = 4294967295;

    // The room in lists of these lengths: the smaller of the length and the cap, in what the figures count.
    pub(crate) fn room(keys: usize, values: usize, texts: usize, features: usize) -> Figures
        ensures { result ≡ room_of keys values texts features }
    {
        Figures {
            keys: smaller(keys / 2, Layer::MAX_KEYS),
            values: smaller(values / 3, Layer::MAX_VALUES),
            texts: smaller(texts, Layer::MAX_TEXTS),
            features: smaller(features, Layer::MAX_FEATURE_WORDS),
        }
    }

    // Whether no figure exceeds its cap.
    fn are_capped(u: Figures) -> bool
        ensures { result ≡ fits u caps }
    {
        (u.keys <= Layer::MAX_KEYS)
            & ((u.values <= Layer::MAX_VALUES)
                & ((u.texts <= Layer::MAX_TEXTS) & (u.features <= Layer::MAX_FEATURE_WORDS)))
    }

    // Whether figures fit into lists of these lengths, caps and all. No list's length is divided for it.
    pub(crate) fn has_room_for(
        u: Figures,
        keys: usize,
        values: usize,
        texts: usize,
        features: usize,
    ) -> bool
        ensures { result ≡ fits u (room_of keys values texts features) }
    {
        if !Layer::are_capped(u) {
            return false;
        }
        (u.keys * 2 <= keys)
            & ((u.values * 3 <= values) & ((u.texts <= texts) & (u.features <= features)))
    }

    // A layer without features. Its name becomes the first text.
    pub fn new(name: &[u8], extent: u32, texts: &mut [u8]) -> Result<Layer, Refusal>
        ensures { Gives (created name.now extent texts.old) (said_created result) texts.new }
    {
        let len = name.len();
        if !Text::may_have(len) {
            return Err(Refusal::Text);
        }
        if !utf8::is_utf8(name) {
            return Err(Refusal::Utf8);
        }
        if smaller(texts.len(), Layer::MAX_TEXTS) < len {
            return Err(Refusal::Room);
        }
        runs::lay(name, texts, 0);
        let used = Figures {
            keys: 0,
            values: 0,
            texts: len,
            features: 0,
        };
        Ok(Layer {
            extent,
            strict: false,
            name: len,
            used,
            feature: None,
        })
    }

    // Whether no feature is open.
    pub fn is_shut(self) -> bool
        ensures { result ≡ is_shut self.feature }
    {
        self.feature.is_none()
    }

    // The same layer, strict.
    fn made_strict(self) -> Layer
        ensures { result ≡ chosen true self }
    {
        Layer {
            strict: true,
            ..self
        }
    }

    // A strict layer without features, otherwise as `new` makes it.
    pub fn new_strict(name: &[u8], extent: u32, texts: &mut [u8]) -> Result<Layer, Refusal>
        ensures { Gives (created_strict name.now extent texts.old) (said_created result) texts.new }
    {
        Ok(Layer::new(name, extent, texts)?.made_strict())
    }
}

// Whether no figure exceeds the other's.
pub(crate) fn fits_in(a: Figures, b: Figures) -> bool
    ensures { result ≡ fits a b }
{
    (a.keys <= b.keys)
        & ((a.values <= b.values) & ((a.texts <= b.texts) & (a.features <= b.features)))
}
