// Demand 3, second half: every call ends, and then the counts are exact. Definitions and proofs, no code.

#![tactic(auto)]
