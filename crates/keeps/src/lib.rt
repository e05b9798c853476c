// No code: the laws of the calls, in proofs/. Each keeps the shape, which the fresh table has, and what a change wrote down; a refusal is
// the lowest that applies and alters nothing.
#![tactic(auto)]
