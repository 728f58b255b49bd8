// No code: how many rounds the functions' recipes make, stated over the definitions that their contracts cite.
#![tactic(auto)]
