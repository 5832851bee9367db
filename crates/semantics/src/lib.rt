// Constraints, rules, states, firing, derivations, overlaps and the verdict. No code: definitions in specs/, the theory in proofs/.

#![tactic(auto)]
