// No code: in a state in shape the turns' clipped indices are the numbers themselves, and a turn is the rules' own.
#![tactic(auto)]
