// The rules of 01 for a definition, its refusals and its table: the definitions are in specs/, what follows from them in
// proofs/; no code.
#![tactic(auto)]
