// No shift of Δ1, Δ2 or Δ3 could be longer (document 02): the statement is in specs/, and its proof
// in proofs/.
#![tactic(auto)]
