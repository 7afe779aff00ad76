//! How much of the input is taken.

/// The most bytes of a table that is checked.
pub const MOST_TABLE: usize = 67_108_864;
