//! The code of the curve `y^2 + y = x^3` over GF(4) with its eight points, compiled and used: its words, verdicts and
//! ledgers are compared with those that were worked by hand, and its decoder and what it fills in with searches. On codes of
//! 64 symbols decoding with a guess is compared with the vote alone, at errors with a structure.
#![tactic(auto)]

#[cfg(test)]
mod lost;
#[cfg(test)]
mod rig;
#[cfg(test)]
mod searched;
#[cfg(test)]
mod structured;
#[cfg(test)]
mod tests;
