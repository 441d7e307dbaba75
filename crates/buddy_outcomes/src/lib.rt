// What each call of a buddy store says and leaves, for every input. specs/ says it; no code.
#![tactic(auto)]
