// What the encoder's counts are (document 02, request (ix)), from the calls alone, and how many vertices stand in the words: laws of any run of calls.
// No function.
#![tactic(auto)]
