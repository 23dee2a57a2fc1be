//! The book as an object, which many threads may call by a turn cell.

use crate::book::{Book, JoinEnd, LeaveEnd, ReportEnd};
use crate::report::Report;
use karma_rule::{MOST_FAIR, Row, Shape};
use turn_cell::Object;

/// A call of a book. None is a move.
#[derive(Debug, Drop)]
pub enum BookAsk {
    /// [`Book::report`].
    Report { user: u32, demand: u64 },
    /// [`Book::join`]. The share has to be within its limits.
    Join { user: u32, fair: u64, floor: u64 },
    /// [`Book::leave`].
    Leave { user: u32 },
    /// [`Book::share`].
    Share { user: u32 },
    /// [`Book::tick`]. The report has to have a row for each user of the book.
    Tick { report: Report },
}

/// What a book answers.
#[derive(Debug, Drop)]
pub enum BookTell {
    /// How many quanta were made before the report, or why it wasn't taken.
    Report(Result<u32, ReportEnd>),
    /// How many quanta were made before the user joined, or why it didn't.
    Join(Result<u32, JoinEnd>),
    /// How many quanta were made before the user left, or why it didn't.
    Leave(Result<u32, LeaveEnd>),
    /// The user's row, or none where there is no such user.
    Share(Option<Row>),
    /// The report with the new quantum, or as it was asked with where all quanta were spent.
    Tick { report: Report, spent: bool },
}

/// What a call adds to the history. No value of it is made.
pub struct BookEntry {
    pub ask: BookAsk,
    pub tell: BookTell,
}

impl Object for Book {
    ghost use Rattle.std.specs.Prelude.{false};
    ghost use Rattle.demand_book.specs.BookLegal.{StandsFor, IsRight, book_after, entry_of, fits_book, shape_of_book};
    ghost use Rattle.demand_book.specs.Book.{opening_book};

    type Key = Shape;

    type Ask = BookAsk;

    type Tell = BookTell;

    type Entry = BookEntry;

    ghost key_of = { shape_of_book };

    ghost allows = { fits_book };

    ghost moves = { λ ask. false };

    ghost stands = { StandsFor };

    ghost entry = { λ before ask tell after. entry_of ask tell };

    ghost moving = { λ entry. false };

    ghost answers = { λ shape history ask tell. IsRight (book_after (opening_book shape) history) ask tell };

    fn key(&self) -> Shape {
        self.shape()
    }

    fn fits(key: Shape, ask: &BookAsk) -> bool {
        match ask {
            BookAsk::Tick { report } => report.rows.items().len() == key.users as usize,
            BookAsk::Join {
                user: _,
                fair,
                floor,
            } => *fair >= 1 && *fair <= MOST_FAIR && *floor <= *fair,
            BookAsk::Report { user: _, demand: _ }
            | BookAsk::Leave { user: _ }
            | BookAsk::Share { user: _ } => true,
        }
    }

    fn is_move(_ask: &BookAsk) -> bool {
        false
    }

    fn apply(&mut self, ask: BookAsk) -> BookTell {
        match ask {
            BookAsk::Report { user, demand } => BookTell::Report(self.report(user, demand)),
            BookAsk::Join { user, fair, floor } => BookTell::Join(self.join(user, fair, floor)),
            BookAsk::Leave { user } => BookTell::Leave(self.leave(user)),
            BookAsk::Share { user } => BookTell::Share(self.share(user)),
            BookAsk::Tick { mut report } => {
                let spent = self.tick(&mut report).is_err();
                BookTell::Tick { report, spent }
            }
        }
    }
}
