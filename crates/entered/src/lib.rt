// No code: what is entered is what is printed, stated over the definitions that the contracts of `runner` and `sheet` cite.
#![tactic(auto)]
