//! Lemmas that several crates cite: the ring laws of the integers, lists with one more item, and lists of numbers that are filtered. There
//! is no code here, only what stands in `proofs/`.
#![tactic(auto)]
