// The meaning of a question text: definitions and laws, in specs/. There is no code here.
#![tactic(auto)]
