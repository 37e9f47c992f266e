// The three demands on one page, the table by its meaning, and what holds over several calls: kept as full, end to end, the listed questions as their formulas, and the
// marked lines of R1. Statements and laws only.
#![tactic(auto)]
