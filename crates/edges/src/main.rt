// The program: takes one job file from standard input and prints the edges of its raw points, or its refusal (RULES 11).
#![tactic(auto)]

ghost use Rattle.std.specs.Prelude.{◌*◌, ◌+◌, ◌≤◌, length};
ghost use Rattle.promise.specs.Lent.{mutable};
ghost use Rattle.printed.specs.Lending.{Tells};
ghost use Rattle.edges.specs.Program.{printed};

use printed::Text;
use std::io;
use std::io::Write;

// What the program prints for a file, at the front of `text`: how many bytes it is. The lists are the program's own, and large enough: a file has
// fewer edges than numbers.
fn answer(
    file: &[u8],
    numbers: &mut [u32],
    words: &mut [u32],
    edges: &mut [u32],
    text: &mut [u8],
) -> usize
    requires numbers_in_bounds { length numbers.old ≤ length edges.old }
    requires in_bounds { 53 ≤ length text.old }
    requires edges_in_bounds { 27 + 21 * length edges.old ≤ length text.old }
    ensures { Tells (printed file.now numbers.old words.old edges.old) result (mutable text) }
{
    match number_file::read_numbers(file, numbers) {
        Err(r) => printed::show_refused(refusal::number(r), 0, text),
        Ok(n) => match job_file::encode_file_edges(&numbers[..n], words, edges) {
            Err(e) => printed::show_refused(refusal::number(e.refusal), e.kept, text),
            Ok(_) => {
                let points = job_file::point_count(&numbers[..n]);
                printed::show_edges(&edges[..2 * points], text)
            }
        },
    }
}

// A file may have 65,536 bytes; one more is read, so that a longer file is seen.
fn main(rt: HostRuntime) -> io::Result<()> {
    let mut file = [0u8; 65537];
    let n = console::fill(&mut rt.stdin(), &mut file)?;
    let mut numbers = [0u32; 16384];
    let mut words = [0u32; 16384];
    let mut edges = [0u32; 16384];
    let mut text = [0u8; Text::WORDS];
    let k = answer(&file[..n], &mut numbers, &mut words, &mut edges, &mut text);
    io::writer(&rt).write_all(&text[..k])
}
