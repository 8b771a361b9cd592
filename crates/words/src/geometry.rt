// What a geometry may be: its kind by document 01's number, and how many words it may have.
ghost use Rattle.std.specs.Prelude.{◌≡◌};
ghost use Rattle.words.specs.Geometries.{is_kind, max_words, room};

use number::smaller;

// The kind is a number from outside, any number: `is_good` asks which ones are kinds, so it is no enum.
#[derive(Clone, Copy)]
pub struct Geometry {
    pub kind: u32,
}

impl Geometry {
    pub const POINT: u32 = 1;

    pub const LINE: u32 = 2;

    pub const POLYGON: u32 = 3;

    pub const MAX_WORDS: usize = 1_048_576;

    pub fn max_words() -> usize
        ensures { result ≡ max_words }
    {
        Geometry::MAX_WORDS
    }

    pub fn is_good(self) -> bool
        ensures { result ≡ is_kind self.kind }
    {
        Geometry::POINT <= self.kind && self.kind <= Geometry::POLYGON
    }

    // How many words fit a lent list of that length.
    pub fn room(length: usize) -> usize
        ensures { result ≡ room length }
    {
        smaller(length, Geometry::MAX_WORDS)
    }
}
