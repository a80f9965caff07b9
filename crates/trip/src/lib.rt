// The way of a run through C: written and read by the calls of `dds`, on byte slices. It has no functions; its definitions
// are in specs/, its theorems in proofs/.
#![tactic(auto)]
