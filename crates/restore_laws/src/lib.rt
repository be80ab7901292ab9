// Frames that are put back and converted, by calls: statements in specs/, and their proofs in
// proofs/.
#![tactic(auto)]
