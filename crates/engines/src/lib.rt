// What an engine of stores must provide, and histories of calls of several engines over one account. specs/ says it; proofs/ what follows; no code.
#![tactic(auto)]
