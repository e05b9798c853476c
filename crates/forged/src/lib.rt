// No code: runs in which each sentence of demand 3 and each own-step bound speaks of something, and broken machines that fail one of them.
#![tactic(auto)]
