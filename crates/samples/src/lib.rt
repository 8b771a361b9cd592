// Document 01's samples marked P, as one list with one proved statement about the definitions: specs/Samples.antt. There is no code.
#![tactic(auto)]
