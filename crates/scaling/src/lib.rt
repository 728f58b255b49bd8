// No code: what a power of two does, stated over the definitions that the contracts of operations, recipes and functions cite.
#![tactic(auto)]
