/// How the vote on one unchecked member went, for the error that was found.
#[derive(Clone, Copy)]
pub struct VoteLine {
    /// The member's label.
    pub label: u32,
    /// How many pairs have this member as their sum.
    pub pairs: u32,
    /// How many candidates among them are right.
    pub right: u32,
    /// How many are wrong.
    pub wrong: u32,
}
