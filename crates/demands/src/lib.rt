// No code: demand 3, stated over the definitions that the public contracts of `sheet` cite.
#![tactic(auto)]
