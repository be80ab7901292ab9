// Which bytes of a ring the rules claim: statements in specs/, and their proofs in proofs/.
#![tactic(auto)]
