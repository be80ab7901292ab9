// Why a position has no hold, over any text: definitions in specs/ and their theorems in proofs/.
// The enums stand in the crate explain_answers, and the code that finds an explanation in
// alignment, explain_walk, explain_position and explain.
#![tactic(auto)]
