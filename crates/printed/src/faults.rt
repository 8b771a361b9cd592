// A refusal as a line, with its place where it has one.
ghost use Rattle.std.specs.Prelude.{◌≡◌};
ghost use Rattle.promise.specs.Lent.{mutable};
ghost use Rattle.printed.specs.Lending.{Shows};
ghost use Rattle.printed.specs.Printed.{refused_room};
ghost use Rattle.printed.specs.Faults.{has_place, fault_text};

use crate::{Text, append, append_number, show_refused};
use refusal::Refusal;

impl Text {
    // For a refusal's line: 13 bytes, and two numbers of at most twenty digits.
    pub const REFUSED: usize = 53;
}

// A place of 0 is one too, so the place itself does not tell.
fn has_place(number: u32) -> bool
    ensures { result ≡ has_place number }
{
    let none = refusal::number(Refusal::NoParams);
    let cut = refusal::number(Refusal::CutParams);
    (number == none) | (number == cut)
}

// `refused K at I` where K has a place, else `refused K`: how many bytes it is. A text of fewer than 53 bytes stays as it is, and the answer is 0.
pub fn show_fault(number: u32, place: usize, text: &mut [u8]) -> usize
    ensures { Shows refused_room (fault_text number place) result (mutable text) }
{
    if has_place(number) {
        return show_refused(number, place, text);
    }
    if text.len() < Text::REFUSED {
        return 0;
    }
    append(b"refused ", 0, text);
    append_number(number as u64, b'\n', 8, text)
}
