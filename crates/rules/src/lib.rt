// No code: the rules of the machine, in specs/, and the table of runs that is computed from them, in proofs/.
#![tactic(auto)]
