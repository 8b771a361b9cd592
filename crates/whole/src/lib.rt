// Laws of the whole numbers, for the proofs of the crates above: definitions in specs/, laws in proofs/. There is no code.
#![tactic(auto)]
