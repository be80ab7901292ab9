// A job that is turned, searched, converted and counted: statements in specs/, and their proofs in
// proofs/.
#![tactic(auto)]
