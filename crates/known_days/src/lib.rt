// The starred known days of document 01, established together against the definitions, and board files as literal
// bytes. It has no code.
#![tactic(auto)]
