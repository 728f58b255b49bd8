// No code: what is written as text is read back, stated over the definitions that the contracts of `text`, `line` and `hexfloat` cite.
#![tactic(auto)]
