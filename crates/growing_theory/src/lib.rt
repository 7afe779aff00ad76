//! Matrices that become known row by row: what the pivots say of the ranks. Definitions in `specs/`, lemmas in `proofs/`.
#![tactic(auto)]
