// Runs of calls on a layer, and what abandoning a feature leaves behind: definitions in specs/, laws in proofs/. There is no code.
#![tactic(auto)]
