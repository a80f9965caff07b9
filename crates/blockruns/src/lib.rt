// Runs that the profile for blocks of one size reads, beside the plain reader, at home and through C. It has no functions; its
// definitions are in specs/, its theorems in proofs/.
#![tactic(auto)]
