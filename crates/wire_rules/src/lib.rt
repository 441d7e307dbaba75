// Settings, account, outcomes and answers as words, and what a call leaves of lent words. specs/ says it; proofs/ what follows; no code.
#![tactic(auto)]
