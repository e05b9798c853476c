// No code: one answer, one state. Any two outcomes that a public function's contract allows are equal.
#![tactic(auto)]
