// The mathematics of document 01, in specs/ and proofs/: cuts, ranks, ways, marks, verdicts, stamps, possible orders. There is no code here.
#![tactic(auto)]
