//! The top call `run`, which carries every promise of the program: start with its contract in `top`, and with what the
//! commands say in `specs/Headline` and `specs/Commands`.
#![tactic(auto)]

mod carry_out;
mod check;
mod compile_and_serve;
mod decode;
mod design;
mod encode;
mod erase;
mod input;
mod limit;
mod member;
mod needs;
mod obey;
mod params;
mod pieces;
mod points;
mod report;
mod serve;
mod status;
mod table;
mod text;
mod top;
mod trial;
mod votes;
mod word;

pub use limit::MOST_TABLE;
pub use pieces::pieces_do_not_count;
pub use status::Status;
pub use top::run;
