// No code: exact fractions, and what it is to lie within a bound of one, stand in specs/.
#![tactic(auto)]
