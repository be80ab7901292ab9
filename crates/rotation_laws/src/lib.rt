// A ring that is started at another byte, searched and converted: statements in specs/, and their
// proofs in proofs/.
#![tactic(auto)]
