// The program: takes one job file from standard input and prints what became of its points, or its refusal (RULES 11).
#![tactic(auto)]

ghost use Rattle.std.specs.Prelude.{◌+◌, ◌≤◌, length};
ghost use Rattle.promise.specs.Lent.{mutable};
ghost use Rattle.printed.specs.Lending.{Shows, Tells};
ghost use Rattle.printed.specs.Losses.{losses_room};
ghost use Rattle.losses.specs.Program.{tally_text, printed};

use encoder::tally::Tally;
use printed::Text;
use std::io;
use std::io::Write;

// The four counts and the vertices as lines, at the front of `text`. No more points are lost than were given, so the vertices are no less than zero.
fn show_tally(t: Tally, text: &mut [u8]) -> usize
    requires { t.skipped + t.taken_out ≤ t.taken + t.boundary }
    ensures { Shows losses_room (tally_text t) result (mutable text) }
{
    let taken = t.taken as u64;
    let boundary = t.boundary as u64;
    let skipped = t.skipped as u64;
    let out = t.taken_out as u64;
    let vertices = taken + boundary - skipped - out;
    printed::losses::show_losses(taken, boundary, skipped, out, vertices, text)
}

// What the program prints for a file, at the front of `text`: how many bytes it is. The lists are the program's own, and large enough.
fn answer(file: &[u8], numbers: &mut [u32], words: &mut [u32], text: &mut [u8]) -> usize
    requires { losses_room ≤ length text.old }
    ensures { Tells (printed file.now numbers.old words.old) result (mutable text) }
{
    match number_file::read_numbers(file, numbers) {
        Err(r) => printed::show_refused(refusal::number(r), 0, text),
        Ok(n) => match job_file::finish_file(&numbers[..n], words) {
            Err(e) => printed::show_refused(refusal::number(e.refusal), e.kept, text),
            Ok(s) => show_tally(s.tally, text),
        },
    }
}

// A file may have 65,536 bytes; one more is read, so that a longer file is seen. Words are lent as `job` lends them, so both refuse alike
// (`file_finished` of job_file).
fn main(rt: HostRuntime) -> io::Result<()> {
    let mut file = [0u8; 65537];
    let n = console::fill(&mut rt.stdin(), &mut file)?;
    let mut numbers = [0u32; 16384];
    let mut words = [0u32; 16384];
    let mut text = [0u8; Text::LOSSES];
    let k = answer(&file[..n], &mut numbers, &mut words, &mut text);
    io::writer(&rt).write_all(&text[..k])
}
