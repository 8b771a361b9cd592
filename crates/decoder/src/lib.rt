// Document 01, "Reading words", as request (iii) amends it: a geometry's words to its vertices, by MVT 4.3 alone; all of them at once, or one after the other.
#![tactic(auto)]

ghost use Rattle.std.specs.Prelude.{◌≡◌, ◌<◌, length, drop};
ghost use Rattle.promise.specs.Answers.{Gives};
ghost use Rattle.decoder.specs.ReadingWords.{reading, said_reading};
ghost use Rattle.decoder.specs.Stepping.{cursor_of, Stands, pair_of, command_of, next_of};

use crate::command::Asked;
use crate::pen::Pen;
use refusal::{Fault, Refusal};
use words::geometry::Geometry;

mod command; // a command word with the words behind it
mod passes; // through all the words, to size and to write
pub mod pen; // what one word says, and where a reading stands

// Three numbers a vertex, id, x and y, at the front of `out`, and how many vertices there are. The first pass sizes, so that a refusal writes nothing; ROOM is asked after all faults.
pub fn decode(words: &[u32], out: &mut [i32]) -> Result<usize, Fault>
    ensures { Gives (reading words.now out.old) (said_reading result) out.new }
{
    let n = passes::size(words)?;
    if Geometry::max_words() < words.len() {
        return Err(Fault {
            refusal: Refusal::Room,
            place: 0,
        });
    }
    if out.len() < 3 * n {
        return Err(Fault {
            refusal: Refusal::Room,
            place: 0,
        });
    }
    passes::write(words, out);
    Ok(n)
}

// A pair of parameters, which the command's word was seen to have.
fn draw(words: &[u32], pen: Pen) -> Result<Option<Pen>, Fault>
    requires { ((pen.left ≡ 0) → ⊥) × Stands pen words.now }
    ensures { result ≡ pair_of pen.at pen.left pen.id (cursor_of pen) (drop pen.at words.now) }
{
    let at = pen.at;
    let x = pen::reach(pen.x, words[at]);
    let y = pen::reach(pen.y, words[at + 1]);
    if !(pen::is_inside(x) & pen::is_inside(y)) {
        return Err(Fault {
            refusal: Refusal::Step,
            place: 0,
        });
    }
    Ok(Some(pen.drawn(x as i32, y as i32)))
}

// A command word and, of a MoveTo or a LineTo, its first pair.
fn begin(words: &[u32], pen: Pen) -> Result<Option<Pen>, Fault>
    requires { pen.at < length words.now }
    ensures { result ≡ command_of pen.at (cursor_of pen) (drop pen.at words.now) }
{
    match command::ask(words, pen.at)? {
        Asked::Close => Ok(Some(pen.closed())),
        Asked::Draw(id, pairs) => draw(words, pen.begun(id, pairs)),
    }
}

// The pen at the next vertex, `None` at the end, or a refusal. A pen that does not stand in the words is at the end.
pub fn next(words: &[u32], pen: Pen) -> Result<Option<Pen>, Fault>
    ensures { result ≡ next_of pen words.now }
{
    let at = pen.at;
    let left = pen.left;
    if words.len() <= at {
        return Ok(None);
    }
    if left == 0 {
        return begin(words, pen);
    }
    if (words.len() - at) / 2 < left {
        return Ok(None);
    }
    draw(words, pen)
}
