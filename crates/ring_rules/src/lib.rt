// Places linked into a ring in words, and what follows from taking one out and putting one in. specs/ says it; proofs/ what follows; no code.
#![tactic(auto)]
