// Runs of elements, laid at a place of a lent list where they fit. Each call costs what the run has.
#![tactic(auto)]

ghost use Rattle.std.specs.Prelude.{◌≡◌, ◌+◌, leb};
ghost use Rattle.runs.specs.Fitting.{laid_in};

// Whether so many more fit into the room.
pub fn has_room(used: usize, more: usize, room: usize) -> bool
    ensures { result ≡ leb (used + more) room }
{
    used <= room && more <= room - used
}

// The run from index at of dst on, if all of it fits there.
pub fn lay<T: Copy>(run: &[T], dst: &mut [T], at: usize)
    ensures { dst.new ≡ laid_in at run.now dst.old }
{
    if !has_room(at, run.len(), dst.len()) {
        return;
    }
    // Element by element: of `copy_from_slice` the compiler makes a call of memmove, and the C libraries are to need no such name.
    for i in 0..run.len() {
        dst[at + i] = run[i];
    }
}
