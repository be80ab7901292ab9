// A table of rules and a ring turned alike, searched, converted and priced: statements in specs/,
// and their proofs in proofs/.
#![tactic(auto)]
