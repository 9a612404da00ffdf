// No second outcome: for each public function, that its contract admits one answer and one state at exit at most. Statements
// and proofs, no code.

#![tactic(auto)]
