//! Karma's rule of one quantum: how the slices of a pool are divided among its users by demand and credits.
//!
//! Each user has a right to a fair share of slices, of which a floor is never lent while the user wants it. What a
//! user leaves of its floor it donates, and what lies above all floors is shared. A user that wants more borrows
//! slices at a credit each, and a donor earns a credit for each of its slices that is lent. `docs/RULES.md` has the
//! rule step by step, and `specs/Karma.antt` is its definition.
#![tactic(auto)]

mod limits;
mod plain;
mod row;
mod shape;

pub use limits::{
    CREDITS_BOUND, CREDITS_TOP, LEAST_SLICE, MOST_BYTES, MOST_CREDITS, MOST_DEMAND, MOST_FAIR,
    MOST_ROOM, MOST_SLICE, MOST_USERS,
};
pub use plain::{close_rows, open_row, plain_quantum};
pub use row::{Row, Share};
pub use shape::{BadShape, Shape};
