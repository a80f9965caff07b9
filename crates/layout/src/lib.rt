// What a run means: lawful layouts of records and separators, and the theorems over reader and writer. It has no functions;
// its definitions are in specs/, its theorems in proofs/.
#![tactic(auto)]
