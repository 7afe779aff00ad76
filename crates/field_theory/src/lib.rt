//! What a finite field of characteristic 2 is, and sums and counts over the numbers below n: the words that every theory
//! crate above shares. The definitions stand in `specs/`, the lemmas in `proofs/`.
#![tactic(auto)]
