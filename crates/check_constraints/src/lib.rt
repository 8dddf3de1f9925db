// The 52 constraints, and the ordered list of all tests of a trace.
#![tactic(auto)]
