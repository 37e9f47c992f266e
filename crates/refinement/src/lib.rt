// That the state of a live run follows its history: definitions and theorems, no code.
#![tactic(auto)]
