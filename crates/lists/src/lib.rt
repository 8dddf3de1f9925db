// Definitions and laws of lists that every layer's definitions are written with. It has no code.
#![tactic(auto)]
