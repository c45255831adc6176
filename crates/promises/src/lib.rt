// The buyer's demands as theorems: specs/Demand1.antt, Demand2.antt and Demand3.antt are to be read, proofs/ cites the laws of the crates below.
// There is no code here.
#![tactic(auto)]
