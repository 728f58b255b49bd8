// No code: corner facts of the definitions that the contracts cite.
#![tactic(auto)]
