// The rules that a table obeys exactly when some definition compiles to it: the definitions are in specs/, what follows
// from them in proofs/; no code.
#![tactic(auto)]
