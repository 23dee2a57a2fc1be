//! The demand book: what each user last asked for and has in credits, who is present with which share, and the quantum
//! that is made of them.
#![tactic(auto)]

mod as_object;
mod book;
mod report;
mod roster;
mod rows;
mod seats;

pub use as_object::{BookAsk, BookEntry, BookTell};
pub use book::{Book, JoinEnd, LeaveEnd, QUANTA, QuantaSpent, ReportEnd};
pub use report::Report;
pub use rows::Rows;
pub use seats::{has_seat, row_seat, seat_fair};
