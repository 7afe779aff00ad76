//! Texts about a code: its parameters, what the candidates of a decoding said, and what was filled in, whose bytes stand in
//! specs/Texts; and those of a design, in specs/Designs.
#![tactic(auto)]

mod design;
mod filled;
mod params;
mod pieces;
mod votes;

pub use design::{MemberNumbers, PlanNumbers, design_text};
pub use filled::filled_text;
pub use params::{Parameters, params_text};
pub use votes::votes_text;
