// The worked examples of documents 01 and 02: a table in specs/, and one statement over it in
// proofs/.
#![tactic(auto)]
