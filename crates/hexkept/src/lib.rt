// No code: a sheet that is written as hex text and read again is the same bytes, stated over the definitions that the contracts of `hexpage` and `hextext` cite.
#![tactic(auto)]
