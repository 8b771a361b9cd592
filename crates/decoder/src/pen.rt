// What one word says, a command word's id and count or the step of a parameter; and where a reading stands.
ghost use Rattle.std.specs.Prelude.{◌≡◌, cond, ◌+◌, ◌-◌, eqb, ◌+ℤ◌};
ghost use Rattle.std.specs.Int.{w64};
ghost use Rattle.std.proofs.Common.{Fits};
ghost use Rattle.words.specs.Params.{unparam};
ghost use Rattle.decoder.specs.declared.pen.Head.TheVariants.{Draw, Close, Miscounted};
ghost use Rattle.decoder.specs.ReadingWords.{in_i32};
ghost use Rattle.decoder.specs.Stepping.{pen_at, cursor_of, outset};
ghost use Rattle.decoder.specs.Passing.{head_of};

use words::command::{Command, CommandInt};
use words::param::ParamInt;

// The next word, how many pairs of the present command are still to come, its id, and the cursor.
#[derive(Clone, Copy)]
pub struct Pen {
    pub at: usize,
    pub left: usize,
    pub id: u32,
    pub x: i32,
    pub y: i32,
}

// What a command word says by itself.
#[derive(Clone, Copy)]
pub(crate) enum Head {
    Draw(u32, u32),
    Close,
    Miscounted,
    Unknown,
}

impl Pen {
    pub(crate) const LEAST: i64 = -2_147_483_648;

    pub(crate) const GREATEST: i64 = 2_147_483_647;

    // Before the first word.
    pub fn new() -> Pen
        ensures { result ≡ outset }
    {
        Pen {
            at: 0,
            left: 0,
            id: 0,
            x: 0,
            y: 0,
        }
    }

    // Behind a command word, with the cursor where it was.
    pub(crate) fn begun(self, id: u32, pairs: usize) -> Pen
        requires { Fits w64 (self.at + 1) }
        ensures { result ≡ pen_at (self.at + 1) pairs id (cursor_of self) }
    {
        Pen {
            at: self.at + 1,
            left: pairs,
            id,
            ..self
        }
    }

    // Behind a ClosePath, whose vertex is the cursor.
    pub(crate) fn closed(self) -> Pen
        requires { Fits w64 (self.at + 1) }
        ensures { result ≡ pen_at (self.at + 1) 0 7 (cursor_of self) }
    {
        self.begun(7, 0)
    }

    // Behind a pair, which leads to (x, y).
    pub(crate) fn drawn(self, x: i32, y: i32) -> Pen
        requires { ((self.left ≡ 0) → ⊥) × Fits w64 (self.at + 2) }
        ensures { result ≡ pen_at (self.at + 2) (self.left - 1) self.id (record { x = x; y = y }) }
    {
        Pen {
            at: self.at + 2,
            left: self.left - 1,
            x,
            y,
            ..self
        }
    }
}

// MVT 4.3.3.3: a ClosePath has count 1.
fn closing(count: u32) -> Head
    ensures { result ≡ cond (eqb count 1) Close Miscounted }
{
    if count != 1 {
        return Head::Miscounted;
    }
    Head::Close
}

// A MoveTo and a LineTo draw something.
fn drawing(id: u32, count: u32) -> Head
    ensures { result ≡ cond (eqb count 0) Miscounted (Draw id count) }
{
    if count == 0 {
        return Head::Miscounted;
    }
    Head::Draw(id, count)
}

pub(crate) fn head_of(word: u32) -> Head
    ensures { result ≡ head_of word }
{
    let Ok(c) = CommandInt::decode(word) else {
        return Head::Unknown;
    };
    match c.id {
        Command::ClosePath => closing(c.count),
        Command::MoveTo => drawing(1, c.count),
        Command::LineTo => drawing(2, c.count),
    }
}

// Where the step that a parameter says leads along one axis. At 64 bits the sum has room.
pub(crate) fn reach(place: i32, word: u32) -> i64
    ensures { result ≡ place +ℤ unparam word }
{
    let step = ParamInt::decode(word);
    place as i64 + step.value as i64
}

// Whether a place is within i32.
pub(crate) fn is_inside(place: i64) -> bool
    ensures { result ≡ in_i32 place }
{
    (Pen::LEAST <= place) & (place <= Pen::GREATEST)
}
