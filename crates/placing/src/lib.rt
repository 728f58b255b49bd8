// No code: how pieces of text follow each other in a buffer, for crates that write lines.
#![tactic(auto)]
