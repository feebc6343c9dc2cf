// The settled examples of document 01 that are marked P: one table, and one statement about it. There is no code here.
#![tactic(auto)]
