// What became of the points (document 02, request (ix)): four counts since the state was fresh, their rule of STATE and their ROOM.
// The rule's sums, and counts that are still to be asked for room, have 64 bits: none of them wraps.
ghost use Rattle.std.specs.Prelude.{◌≡◌};
ghost use Rattle.encoder.specs.Tallies.{untouched, balanced, are_counts};

#[derive(Clone, Copy)]
pub struct Tally {
    pub taken: u32, // raw points taken
    pub boundary: u32, // boundary points emitted
    pub skipped: u32, // points skipped as equal to the last one
    pub taken_out: u32, // points taken out as lying between neighbours
}

impl Tally {
    // What a count may be at most.
    pub const MAX: usize = 4294967295;

    // A fresh state's.
    pub fn none() -> Tally
        ensures { result ≡ untouched }
    {
        Tally {
            taken: 0,
            boundary: 0,
            skipped: 0,
            taken_out: 0,
        }
    }

    // Whether no more points are lost than were given.
    pub fn is_balanced(self) -> bool
        ensures { result ≡ balanced self }
    {
        let lost = self.skipped as usize + self.taken_out as usize;
        let given = self.taken as usize + self.boundary as usize;
        lost <= given
    }
}

// Whether four numbers fit a tally's counts.
pub(crate) fn are_counts(taken: usize, boundary: usize, skipped: usize, taken_out: usize) -> bool
    ensures { result ≡ are_counts taken boundary skipped taken_out }
{
    (taken <= Tally::MAX)
        & (boundary <= Tally::MAX)
        & (skipped <= Tally::MAX)
        & (taken_out <= Tally::MAX)
}
