// No code: the clauses of demand 3 on a memory of functions, and the proof, in proofs/, that every turn of a task keeps them.
#![tactic(auto)]
