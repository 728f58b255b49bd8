// No code: what holds of the functions besides their definitions.
#![tactic(auto)]
