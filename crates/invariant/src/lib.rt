// Demand 3: what holds of every state of every history. Definitions and proofs, no code.

#![tactic(auto)]
