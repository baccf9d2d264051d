// The rules of 01 for a message, its lawful readings, rows and refusals: the definitions are in specs/, what follows from
// them in proofs/; no code.
#![tactic(auto)]
