// A reading's vertices, laid out in lent bytes: how many there are, and each on a line, its id, x and y.
ghost use Rattle.std.specs.Prelude.{◌≡◌, true, ◌+◌, ◌*◌, ◌/◌, ◌≤◌, length};
ghost use Rattle.promise.specs.Lent.{mutable};
ghost use Rattle.printed.specs.Lending.{Appends};
ghost use Rattle.printed.specs.Vertices.{vertex_line, is_digit, digit_ids, AppendsLines, ShowsVertices};

use crate::losses::append_line;
use crate::{Text, append_signed};
use number::signed_long;

impl Text {
    // For `vertices N` and the vertices of any list of words: 70 bytes, and 26 for each of 16,384 vertices.
    pub const VERTICES: usize = 70 + 26 * 16_384;
}

fn is_digit(id: i32) -> bool
    ensures { result ≡ is_digit id }
{
    if id < 0 {
        return false;
    }
    id < 10
}

// Whether each vertex has an id of one digit.
fn digit_ids(numbers: &[i32]) -> bool
    ensures { result ≡ digit_ids numbers.now }
{
    let n = numbers.len() / 3;
    for i in 0..n {
        if !is_digit(numbers[3 * i]) {
            return false;
        }
    }
    true
}

// Lays three numbers on one line, a blank between them, at a place of the text: the place after them.
fn append_vertex(id: i32, x: i32, y: i32, at: usize, text: &mut [u8]) -> usize
    requires { at + 66 ≤ length text.old }
    ensures { Appends (vertex_line id x y) at result (mutable text) }
{
    let one = append_signed(signed_long(id), b' ', at, text);
    let two = append_signed(signed_long(x), b' ', one, text);
    append_signed(signed_long(y), b'\n', two, text)
}

// Lays the numbers three to a line, from a place of the text on: the place after them. The 40 bytes more are for the last line's numbers, which are laid
// as if they had 64 bits.
fn append_vertices(numbers: &[i32], at: usize, text: &mut [u8]) -> usize
    requires numbers_value { digit_ids numbers.now ≡ true }
    requires numbers_in_bounds { at + 40 + 26 * (length numbers.now / 3) ≤ length text.old }
    ensures { AppendsLines numbers.now at result (mutable text) }
{
    let n = numbers.len() / 3;
    let mut next = at;
    for i in 0..n {
        let id = numbers[3 * i];
        let x = numbers[3 * i + 1];
        let y = numbers[3 * i + 2];
        next = append_vertex(id, x, y, next, text);
    }
    next
}

// `vertices N` and then the id, x and y of each of the N vertices on a line: how many bytes it is. A text of fewer than 70 bytes, and 26 for each vertex,
// stays as it is, and the answer is 0; so it is where an id is below 0 or above 9, which no command's is.
pub fn show_vertices(numbers: &[i32], text: &mut [u8]) -> usize
    ensures { ShowsVertices numbers.now result (mutable text) }
{
    let size = text.len();
    if size < 70 {
        return 0;
    }
    if (size - 70) / 26 < numbers.len() / 3 {
        return 0;
    }
    if !digit_ids(numbers) {
        return 0;
    }
    let at = append_line(b"vertices ", (numbers.len() / 3) as u64, 0, text);
    append_vertices(numbers, at, text)
}
