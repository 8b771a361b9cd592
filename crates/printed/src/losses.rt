// What became of a job's points, laid out in lent bytes: the four counts and the vertices, each on a line behind its name.
ghost use Rattle.std.specs.Prelude.{◌+◌, ◌≤◌, length};
ghost use Rattle.promise.specs.Lent.{mutable};
ghost use Rattle.printed.specs.Lending.{Appends, Shows};
ghost use Rattle.printed.specs.Losses.{headed, losses_text, losses_room};

use crate::{Text, append, append_number};

impl Text {
    // For the five lines of what was lost: 42 bytes of names, and 21 for each number.
    pub const LOSSES: usize = 42 + 21 * 5;
}

// Lays a line with a name, a blank behind it, and a number at a place of the text: the place after it.
pub(crate) fn append_line(name: &[u8], n: u64, at: usize, text: &mut [u8]) -> usize
    requires { at + length name.now + 21 ≤ length text.old }
    ensures { Appends (headed name.now n) at result (mutable text) }
{
    append(name, at, text);
    append_number(n, b'\n', at + name.len(), text)
}

// The four counts of a job and its vertices, each on a line with its name: how many bytes it is. A text shorter than `Text::LOSSES` stays as it
// is, and the answer is 0.
pub fn show_losses(
    taken: u64,
    boundary: u64,
    skipped: u64,
    out: u64,
    vertices: u64,
    text: &mut [u8],
) -> usize
    ensures { Shows losses_room (losses_text taken boundary skipped out vertices) result (mutable text) }
{
    if text.len() < Text::LOSSES {
        return 0;
    }
    let one = append_line(b"taken ", taken, 0, text);
    let two = append_line(b"boundary ", boundary, one, text);
    let three = append_line(b"skipped ", skipped, two, text);
    let four = append_line(b"taken out ", out, three, text);
    append_line(b"vertices ", vertices, four, text)
}
