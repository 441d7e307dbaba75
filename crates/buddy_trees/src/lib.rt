// A buddy store by its chunks and loans alone, with no pairs and no rings: a chunk as a tree, what it fills, how it changes and what
// can be served. specs/ says it; proofs/ what follows; no code.
#![tactic(auto)]
