// The program: takes the words of one geometry from standard input and prints its vertices, or its refusal (RULES 11).
#![tactic(auto)]

ghost use Rattle.std.specs.Prelude.{◌≤◌, length};
ghost use Rattle.promise.specs.Lent.{mutable};
ghost use Rattle.printed.specs.Lending.{Tells};
ghost use Rattle.printed.specs.Vertices.{vertices_room};
ghost use Rattle.read_words.specs.Program.{printed};

use printed::Text;
use printed::faults::show_fault;
use std::io;
use std::io::Write;

// What the program prints for a file, at the front of `text`: how many bytes it is. The lists are the program's own, and large enough.
fn answer(file: &[u8], words: &mut [u32], out: &mut [i32], text: &mut [u8]) -> usize
    requires { vertices_room out.old ≤ length text.old }
    ensures { Tells (printed file.now words.old out.old) result (mutable text) }
{
    match number_file::read_numbers(file, words) {
        Err(r) => show_fault(refusal::number(r), 0, text),
        Ok(n) => match decoder::decode(&words[..n], out) {
            Err(f) => show_fault(refusal::number(f.refusal), f.place, text),
            Ok(vertices) => printed::vertices::show_vertices(&out[..3 * vertices], text),
        },
    }
}

// A file may have 65,536 bytes; one more is read, so that a longer file is seen. A word gives one vertex at most, of three numbers.
fn main(rt: HostRuntime) -> io::Result<()> {
    let mut file = [0u8; 65537];
    let n = console::fill(&mut rt.stdin(), &mut file)?;
    let mut words = [0u32; 16384];
    let mut out = [0i32; 49152];
    let mut text = [0u8; Text::VERTICES];
    let k = answer(&file[..n], &mut words, &mut out, &mut text);
    io::writer(&rt).write_all(&text[..k])
}
