//! What is told of a vote.

/// How the vote on one member that is not checked went.
#[derive(Clone, Copy)]
pub struct PlainLine {
    /// The member's label.
    pub label: u32,
    /// How many pairs have this member as their sum.
    pub pairs: u32,
    /// How many candidates voted for the winner.
    pub right: u32,
    /// How many voted for another value.
    pub wrong: u32,
}
