//! The two sides of a quantum, and what orders the rows of each.

ghost use Rattle.std.specs.Prelude.{◌≡◌, ◌≤◌};
ghost use Rattle.karma_batch.specs.Levels.{key_of, movable_of, above};

use karma_rule::{CREDITS_TOP, Row};

/// Who moves slices: borrowers take them and pay, donors lend them and earn.
#[derive(Clone, Copy)]
pub enum Side {
    Borrowers,
    Donors,
}

/// What orders the rows of a side: the row with the greatest key moves first, and each slice lowers its key by one.
pub fn key(row: &Row, side: Side) -> u64
    requires { row.now.credits ≤ CREDITS_TOP }
    ensures { result ≡ key_of side row.now }
{
    match side {
        Side::Borrowers => row.credits,
        Side::Donors => CREDITS_TOP - row.credits,
    }
}

/// How many slices the row can move: what a borrower wants and can pay, or what a donor has left of its floor.
pub fn room(row: &Row, side: Side) -> u64
    ensures { result ≡ movable_of side row.now }
{
    match side {
        Side::Borrowers => row.demand.saturating_sub(row.given).min(row.credits),
        Side::Donors => row.floor.saturating_sub(row.given),
    }
}

/// How many slices the row moves until its key is down at the level, or its room is used up.
pub fn part_above(row: &Row, side: Side, level: u64) -> u64
    requires { row.now.credits ≤ CREDITS_TOP }
    ensures { result ≡ above side level row.now }
{
    room(row, side).min(key(row, side).saturating_sub(level))
}
