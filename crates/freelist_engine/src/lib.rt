// The free list as one of the engines over an account: its calls, and that it obeys every law of one. No code.
#![tactic(auto)]
