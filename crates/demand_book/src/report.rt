//! A quantum as it is told.

ghost use Rattle.std.specs.Prelude.{◌≡◌, false, IfOk, replicate};
ghost use Rattle.demand_book.specs.Book.{opening_row};

use crate::rows::Rows;
use karma_rule::{Row, Shape};
use std::alloc::{AllocError, Global};

/// A user's row before the first quantum: it is present with the shape's share and credits.
pub(crate) fn first_row(shape: Shape) -> Row
    ensures { result ≡ opening_row shape }
{
    Row {
        demand: 0,
        credits: shape.credits,
        given: 0,
        fair: shape.share.fair,
        floor: shape.share.floor,
        present: true,
    }
}

/// One quantum as it is told: its number, and the row of each user after it.
#[derive(Debug, Drop)]
pub struct Report {
    /// From 0.
    pub quantum: u32,
    pub rows: Rows,
    /// Whether the roster is another one than that of the quantum before. Before the first it is that of the shape.
    pub changed: bool,
}

impl Report {
    ghost use Rattle.demand_book.specs.Book.{blank_row};

    /// A report of quantum 0 for so many users, with rows of zeros that are away.
    pub fn new(alloc: Global, users: u32) -> Result<Self, AllocError>
        ensures { IfOk result (λ report. report ≡ record {
          quantum = 0;
          rows = replicate users blank_row;
          changed = false;
        }) }
    {
        let row = Row {
            demand: 0,
            credits: 0,
            given: 0,
            fair: 0,
            floor: 0,
            present: false,
        };
        let rows = vec![in alloc; row; users as usize]?;
        Ok(Report {
            quantum: 0,
            rows: Rows::from(rows),
            changed: false,
        })
    }

    /// The report before the first quantum: every user is present with the shape's share and credits, demands nothing and
    /// was given nothing.
    pub fn opening(alloc: Global, shape: Shape) -> Result<Self, AllocError>
        ensures { IfOk result (λ report. report ≡ record {
          quantum = 0;
          rows = replicate shape.users (opening_row shape);
          changed = false;
        }) }
    {
        let rows = vec![in alloc; first_row(shape); shape.users as usize]?;
        Ok(Report {
            quantum: 0,
            rows: Rows::from(rows),
            changed: false,
        })
    }
}
