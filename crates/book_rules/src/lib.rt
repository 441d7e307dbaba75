// The book of a store's loans in words: chains by serial, a loan entered and struck, and the test of it. specs/ says it; proofs/ what follows; no code.
#![tactic(auto)]
