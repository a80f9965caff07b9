// Change request 2026-09, over whole runs: where a block begins in a run, and what is found of it in a group's rows. It has no
// functions; its definitions are in specs/, its theorems in proofs/.
#![tactic(auto)]
