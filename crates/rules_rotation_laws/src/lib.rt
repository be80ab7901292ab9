// A ring that is started at another byte, searched, converted and priced with a table of rules:
// statements in specs/, and their proofs in proofs/.
#![tactic(auto)]
