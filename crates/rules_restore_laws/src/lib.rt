// Frames that are put back and converted with a table of rules, by calls: statements in specs/, and
// their proofs in proofs/.
#![tactic(auto)]
