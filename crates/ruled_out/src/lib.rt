// Wrong programs, each as a proved "not" about the definitions: specs/. There is no code.
#![tactic(auto)]
