// Round trips of run sheets: theorems alone, in specs/ what is claimed and in proofs/ that it holds.
#![tactic(auto)]
