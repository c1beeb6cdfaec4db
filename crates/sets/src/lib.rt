// Theorems on sets of places, no code: what a breaker on one more place does to the breakers upstream of the others, to their
// weights and to the breakers in series, and a set's total and series rule read off from these.
#![tactic(auto)]
