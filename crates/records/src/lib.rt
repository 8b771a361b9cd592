// The feature records of a layer, in a lent list of words: six words (kind, id mark, id low, id high, tag word count, geometry word count), then the
// geometry, then the tag words.
#![tactic(auto)]

ghost use Rattle.std.specs.Prelude.{◌≡◌};
ghost use Rattle.records.specs.Records.{head_ok, record_end, records_in, one_record};

use words::geometry::Geometry;

// A feature record, by its words.
#[derive(Clone, Copy)]
pub struct Record;

impl Record {
    // The words before its geometry.
    pub const HEAD: usize = 6;

    // Where they stand: its kind, the id mark, the halves of the id, and how many tag words and geometry words there are.
    pub const KIND: usize = 0;

    pub const MARK: usize = 1;

    pub const LOW: usize = 2;

    pub const HIGH: usize = 3;

    pub const TAGS: usize = 4;

    pub const GEOMETRY: usize = 5;
}

// Whether a record may start with this kind and this id mark.
fn head_ok(kind: u32, mark: u32) -> bool
    ensures { result ≡ head_ok kind mark }
{
    let geometry = Geometry { kind };
    geometry.is_good() && mark <= 1
}

// Where the record at index i ends, if a whole one stands there.
pub fn record_end(ws: &[u32], i: usize) -> Option<usize>
    ensures { result ≡ record_end ws.now i }
{
    if ws.len() < Record::HEAD {
        return None;
    }
    if ws.len() - Record::HEAD < i {
        return None;
    }
    if !head_ok(ws[i], ws[i + Record::MARK]) {
        return None;
    }
    let tags = number::wide(ws[i + Record::TAGS]);
    let geometry = number::wide(ws[i + Record::GEOMETRY]);
    let long = Record::HEAD + tags + geometry;
    if ws.len() - i < long {
        return None;
    }
    Some(i + long)
}

// How many records there are, if they follow each other exactly to the end.
pub fn count(ws: &[u32]) -> Option<usize>
    ensures { result ≡ records_in 0 0 ws.now }
{
    let mut i = 0;
    let mut n = 0;
    // A `while`: each record says where the next one starts.
    while i < ws.len() {
        i = record_end(ws, i)?;
        n += 1;
    }
    Some(n)
}

// Whether one record stands at index i and ends where the list ends.
pub fn is_last(ws: &[u32], i: usize) -> bool
    ensures { result ≡ one_record ws.now i }
{
    record_end(ws, i) == Some(ws.len())
}
