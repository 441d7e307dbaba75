// What each call of a free-list store says and leaves, for every input. specs/ says it; no code.
#![tactic(auto)]
