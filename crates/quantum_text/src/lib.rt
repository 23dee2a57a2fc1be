//! The text of a quantum's report: a block of four lines, and one more where its roster changed, written and read.
#![tactic(auto)]

mod line_kind;
mod parse;
mod read;
mod seat_words;
mod shares;
mod write;

pub use line_kind::LineKind;
pub use parse::parse_block_line;
pub use read::{ReportTextEnd, read_report};
pub use shares::{SHARES_WORD, parse_shares_line, put_shares_line};
pub use write::{put_block_line, write_report};
