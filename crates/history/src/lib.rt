// Demand 3: what a history of the board is, and what its observer notes. Definitions, no code.

#![tactic(auto)]
