// No code: from old sheets and back, stated over the definitions that the contracts of `conversion` and `sheet` cite.
#![tactic(auto)]
