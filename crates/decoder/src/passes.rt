// The two passes through the words, command by command: a constant number of steps a word. The pairs of one command have a loop of their own, which moves
// its pen: one handed over and answered at every pair takes twice the instructions.
ghost use Rattle.std.specs.Prelude.{◌≡◌, [], ◌∷◌, ◌+◌, ◌≤◌, ◌<◌, pos, length};
ghost use Rattle.promise.specs.Laid.{lay};
ghost use Rattle.decoder.specs.ReadingWords.{trace};
ghost use Rattle.decoder.specs.Stepping.{Stands, pairs_of};
ghost use Rattle.decoder.specs.Passing.{ran_of, size_of, behind, Leads, HasRoom, Filled, filled};

use crate::command::Asked;
use crate::pen::Pen;
use crate::{command, pen};
use refusal::{Fault, Refusal};
use words::param::ParamInt;

// The pen behind all pairs of a command; `None` where a position left i32. A `while`, as in `fill`: the pen counts its own pairs, and a `for` would count them twice.
fn over(words: &[u32], start: Pen) -> Option<Pen>
    requires { Stands start words.now }
    ensures { result ≡ ran_of start (pairs_of start words.now) }
{
    let mut pen = start;
    while pen.left != 0 {
        let at = pen.at;
        let x = pen::reach(pen.x, words[at]);
        let y = pen::reach(pen.y, words[at + 1]);
        if !(pen::is_inside(x) & pen::is_inside(y)) {
            return None;
        }
        pen = pen.drawn(x as i32, y as i32);
    }
    Some(pen)
}

// How many vertices there are, or the first fault. A `while`, as in `write`: each turn reads a command, of its own length.
pub(crate) fn size(words: &[u32]) -> Result<usize, Fault>
    ensures { result ≡ size_of (trace words.now) }
{
    let mut pen = Pen::new();
    let mut n = 0;
    while pen.at < words.len() {
        match command::ask(words, pen.at)? {
            Asked::Close => {
                pen = pen.closed();
                n += 1;
            }
            Asked::Draw(id, pairs) => {
                let first = pen.begun(id, pairs);
                let Some(last) = over(words, first) else {
                    return Err(Fault {
                        refusal: Refusal::Step,
                        place: 0,
                    });
                };
                pen = last;
                n += pairs;
            }
        }
    }
    Ok(n)
}

// One vertex at its place.
fn put(id: u32, x: i32, y: i32, at: usize, out: &mut [i32])
    requires { (id < 8) × (at + 3 ≤ length out.old) }
    ensures { out.new ≡ lay at (pos id ∷ x ∷ y ∷ []) out.old }
{
    out[at] = id as i32;
    out[at + 1] = x;
    out[at + 2] = y;
}

// The pen behind the next pair, which is known to stay within i32.
fn follow(words: &[u32], pen: Pen) -> Pen
    requires { Leads pen words.now }
    ensures { result ≡ behind pen words.now }
{
    let at = pen.at;
    let dx = ParamInt::decode(words[at]);
    let dy = ParamInt::decode(words[at + 1]);
    pen.drawn(pen.x + dx.value, pen.y + dy.value)
}

// All pairs of a command, from a place of `out` on.
fn fill(words: &[u32], start: Pen, front: usize, out: &mut [i32]) -> Pen
    requires { (start.id < 8) × Stands start words.now × HasRoom (pairs_of start words.now) front (length out.old) }
    ensures { Filled start (pairs_of start words.now) front out.old result out.new }
{
    let mut pen = start;
    let mut n = front;
    while pen.left != 0 {
        pen = follow(words, pen);
        put(pen.id, pen.x, pen.y, n, out);
        n += 3;
    }
    pen
}

// Of words that are read whole, where there is room for their vertices.
pub(crate) fn write(words: &[u32], out: &mut [i32])
    requires { HasRoom (trace words.now) 0 (length out.old) }
    ensures { out.new ≡ filled (trace words.now) 0 out.old }
{
    let mut pen = Pen::new();
    let mut n = 0;
    while pen.at < words.len() {
        match command::ask(words, pen.at) {
            Ok(Asked::Close) => {
                pen = pen.closed();
                put(pen.id, pen.x, pen.y, n, out);
                n += 3;
            }
            Ok(Asked::Draw(id, pairs)) => {
                let first = pen.begun(id, pairs);
                pen = fill(words, first, n, out);
                n += 3 * pairs;
            }
            Err(_) => return,
        }
    }
}
