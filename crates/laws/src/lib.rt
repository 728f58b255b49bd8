// Laws only: what later crates cite of lib.Ieee, of whole numbers and of lists of tests stands in specs/.
#![tactic(auto)]
