// What every contract is made of: definitions in specs/, their laws in proofs/. There is no code.
#![tactic(auto)]
