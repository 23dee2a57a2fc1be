//! The text of a script's lines, of outcomes and of moves. `docs/FORMATS.md` has the grammar.
#![tactic(auto)]

mod damages;
mod explain;
mod fields;
mod line;
mod moves;
mod outcome;
mod request;
mod rows;
mod verb;

pub use explain::explain_line;
pub use line::{ScriptLine, parse_line};
pub use moves::write_moves;
pub use outcome::write_outcome;
