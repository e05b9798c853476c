// No code: demand 3, in specs/, and the proof, in proofs/, that every run from every fresh table meets it.
#![tactic(auto)]
