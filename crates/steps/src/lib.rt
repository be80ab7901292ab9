// The steps of a search, the occurrences by their meaning and the bound on the comparisons:
// definitions and statements in specs/, and their proofs in proofs/. The code that runs them is in
// the crates whose names begin with run.
#![tactic(auto)]
