// The commands of a part (document 01, "Adding a point"): the one that a point is pushed with, and the counts and ClosePath that complete it, with the
// figures that say where they stand.
// Functions of words and numbers alone: they know no state. A caller asks for room first.
ghost use Rattle.std.specs.Prelude.{◌≡◌, length, ◌≤◌};
ghost use Rattle.promise.specs.Laid.{lay};
ghost use Rattle.words.specs.Commands.{command_word, max_count, id_of};
ghost use Rattle.encoder.specs.Figures.{figures_fit};
ghost use Rattle.encoder.specs.Pushed.{word_of, command, count_word, close_word};
ghost use Rattle.encoder.specs.Ends.{Fitting, EndFits, lay_end};

use words::command::{Command, CommandInt};
use words::geometry::Geometry;

// Whether the figures of a state, with a lent list of that length, keep the rules of STATE.
pub(crate) fn figures_fit(used: usize, count: u32, cmd_offset: usize, length: usize) -> bool
    ensures { result ≡ figures_fit used count cmd_offset length }
{
    let room = Geometry::room(length);
    let count = count as usize;
    (used <= room) & (count <= used / 2 + 1) & ((count == 0) | (cmd_offset < used))
}

// ---- commands
// A command's word, for a count that fits beside the id.
fn command_word(id: Command, count: u32) -> u32
    requires { count ≤ max_count }
    ensures { result ≡ command_word (id_of id) count }
{
    CommandInt { id, count }.encode().unwrap_or(0)
}

// The command that a point at this count is pushed with, if one is.
pub(crate) fn push_command(kind: u32, count: usize) -> Option<u32>
    ensures { word_of result ≡ command kind count }
{
    if count == 0 {
        return Some(command_word(Command::MoveTo, 1));
    }
    if count == 1 {
        if kind == Geometry::POINT {
            return None;
        }
        return Some(command_word(Command::LineTo, 1));
    }
    None
}

// The word that sets the last command's count, if it is set.
fn set_command_count(kind: u32, count: u32) -> Option<u32>
    requires { count ≤ max_count }
    ensures { word_of result ≡ count_word kind count }
{
    if kind == Geometry::POINT {
        return Some(command_word(Command::MoveTo, count));
    }
    if 1 < count {
        return Some(command_word(Command::LineTo, count - 1));
    }
    None
}

// The word that closes a polygon, if it is closed.
fn close_path(kind: u32, count: u32) -> Option<u32>
    ensures { word_of result ≡ close_word kind count }
{
    if (kind == Geometry::POLYGON) & (1 < count) {
        return Some(command_word(Command::ClosePath, 1));
    }
    None
}

// ---- writing
fn write_word(at: usize, word: Option<u32>, words: &mut [u32])
    requires { Fitting at (word_of word) (length words.old) }
    ensures { words.new ≡ lay at (word_of word) words.old }
{
    if let Some(w) = word {
        words[at] = w;
    }
}

// Completes a part: the count at the last command's place, then ClosePath behind the used words.
pub(crate) fn write_end(kind: u32, count: u32, cmd_offset: usize, used: usize, words: &mut [u32])
    requires { EndFits kind count cmd_offset used (length words.old) }
    ensures { words.new ≡ lay_end kind count cmd_offset used words.old }
{
    write_word(cmd_offset, set_command_count(kind, count), words);
    write_word(used, close_path(kind, count), words)
}
