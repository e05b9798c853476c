// What is printed: the text of the whole example, computed, and that demand 3 holds of every run that is printed. No code.
#![tactic(auto)]
