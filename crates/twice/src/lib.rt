// What is written, answered and refused, said a second time: by bytes and numbers that a caller sees, and not by the steps of
// reader and writer. It has no functions; its definitions are in specs/, its theorems in proofs/.
#![tactic(auto)]
