// What the calls gave is what goes out: an abstract layer, what each call does to it and its message, in specs/; that lists and bytes are
// these, in proofs/. There is no code.
#![tactic(auto)]
