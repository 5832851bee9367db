// What a program and a goal mean, from their texts: definitions in specs/, and what follows from them in proofs/; no code.

#![tactic(auto)]
