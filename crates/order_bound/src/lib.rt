//! The order bound of a code, and its table: a text that anyone can check without building the code. Start at `bound`,
//! whose contract has the distance theorem, then `table_text` and `check_table`.
//!
//! Source: T. Høholdt, J. H. van Lint, R. Pellikaan, "Algebraic geometry codes", in the Handbook of Coding Theory, 1998.
#![tactic(auto)]

mod checks;
mod distance;
mod functions;
mod members;
mod pairs;
mod reader;
mod refusal;
mod table;
mod writer;

pub use distance::bound;
pub use refusal::tables_are_refused_at_one_line;
pub use table::{TableSays, check_table};
pub use writer::table_text;
