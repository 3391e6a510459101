// Demand 3 and the law on races: the claims and their proofs. It holds no code: the claims are in specs/, the proofs in proofs/.
#![tactic(auto)]
