// What a compiled table says of a definition: the definitions are in specs/, what follows from them in proofs/; no code.
#![tactic(auto)]
