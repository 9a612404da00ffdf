// Demand 3, first half: the promise, and its proof from the invariant. Definitions and proofs, no code.

#![tactic(auto)]
