// Exactness: theorems over the definitions of hash, trace and constraints. It has no code.
#![tactic(auto)]
