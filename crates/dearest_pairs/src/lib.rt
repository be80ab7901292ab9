// Every pattern and text of a size, of bytes 00 and 01, and the dearest of them: definitions and
// statements in specs/, and their proofs in proofs/. The code that finds it is not finished.
#![tactic(auto)]
