// Free-list and buddy stores beside each other over one account: what holds of every history of their calls. No code.
#![tactic(auto)]
