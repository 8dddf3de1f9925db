// The user's three demands (document 00), the requests of document 02, what is turned back and why, and the program,
// each as one theorem over the definitions that the contracts cite. It has no code.
#![tactic(auto)]
