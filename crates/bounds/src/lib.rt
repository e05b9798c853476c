// No code: the own-step bounds, in specs/, and their proofs.
#![tactic(auto)]
