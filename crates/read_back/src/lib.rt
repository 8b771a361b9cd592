// What our writers made reads back as it was given: what a reader says of a tile, as MVT's layers of what the calls gave, in specs/; that it says so, in
// proofs/. There is no code.
#![tactic(auto)]
