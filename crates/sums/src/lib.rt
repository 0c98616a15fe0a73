// Finite sums, binomials and the multinomial theorem, signed arithmetic, lists made by filling loops, and
// what a list of steps leaves: the general laws that the other crates rest on. Definitions and laws, no code.
#![tactic(auto)]
