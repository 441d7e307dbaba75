// The worked days of 01 that are to be proved, as one checked table: specs/Days. No code.
#![tactic(auto)]
