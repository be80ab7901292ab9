// Positions that are explained, by calls: statements in specs/, and their proofs in proofs/.
#![tactic(auto)]
