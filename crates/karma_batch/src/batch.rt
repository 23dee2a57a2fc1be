//! The rule's fast body: one quantum by levels of credits.

ghost use Rattle.std.specs.Prelude.{◌≡◌, ◌≤◌, length, map, sum_by, All, true};
ghost use Rattle.karma_rule.specs.Karma.{if_present, surplus, opened};
ghost use Rattle.karma_rule.specs.OpenRow.{user_of, IsOpenRow};
ghost use Rattle.karma_rule.specs.Quanta.{IsReady, CanMakeQuantum, MakesQuantum};
ghost use Rattle.karma_batch.specs.declared.side.Side.TheVariants.{Borrowers, Donors};
ghost use Rattle.karma_batch.specs.Levels.{movable_of};

use crate::side::{Side, room};
use crate::spread::spread_count;
use karma_rule::{MOST_USERS, Row, close_rows, open_row};

/// How many slices a quantum shares, and how many each side can move.
#[derive(Clone, Copy)]
struct Rooms {
    shared: u64,
    wanted: u64,
    donated: u64,
}

/// Opens a quantum, and counts in the same pass what there is to move.
fn open_all(rows: &mut [Row]) -> Rooms
    requires users { length rows.old ≤ MOST_USERS }
    requires ready { CanMakeQuantum rows.old }
    ensures users { map user_of rows.new ≡ map opened rows.old }
    ensures rows_open { All IsOpenRow rows.new }
    ensures shared { result.shared ≡ sum_by (if_present surplus) rows.old }
    ensures wanted { result.wanted ≡ sum_by (movable_of Borrowers) rows.new }
    ensures donated { result.donated ≡ sum_by (movable_of Donors) rows.new }
{
    let mut shared = 0;
    let mut wanted = 0;
    let mut donated = 0;
    for row in rows.iter_mut() {
        shared += open_row(row);
        wanted += room(row, Side::Borrowers);
        donated += room(row, Side::Donors);
    }
    Rooms {
        shared,
        wanted,
        donated,
    }
}

/// Makes one quantum: the rows become those that Karma's rule gives, by levels of credits.
///
/// It takes no memory but a buffer on the stack, and a time that grows with the count of users times the bits of a
/// credit, whatever the count of loans.
pub fn batch_quantum(rows: &mut [Row])
    requires users { length rows.old ≤ MOST_USERS }
    requires ready { CanMakeQuantum rows.old }
    ensures { MakesQuantum rows.old rows.new }
{
    let rooms = open_all(rows);
    let loans = rooms.wanted.min(rooms.donated + rooms.shared);
    let lent = loans.min(rooms.donated);
    spread_count(rows, Side::Borrowers, rooms.wanted, loans);
    spread_count(rows, Side::Donors, rooms.donated, lent);
    close_rows(rows);
}
