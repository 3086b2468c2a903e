// Mathematics only: finite sums, the ring normaliser, congruence and machine words stand in specs/ and proofs/.
#![tactic(auto)]
