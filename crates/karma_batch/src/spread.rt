//! A count of slices moved in the order of the keys: down to a level, and then by the users' numbers.

ghost use Rattle.std.specs.Prelude.{◌≡◌, ◌+◌, ◌^◌, ◌<◌, ◌≤◌, length, sum_by, All};
ghost use Rattle.karma_rule.specs.OpenRow.{IsOpenRow};
ghost use Rattle.karma_batch.specs.Levels.{key_of, movable_of, moved_by, extra, amount, amounts, all_moved, Spreads};

use crate::level::level_for;
use crate::side::{Side, key, part_above, room};
use karma_rule::{MOST_FAIR, MOST_USERS, Row};

/// Moves so many slices of the row: a borrower pays for each, a donor earns for each.
fn move_by(row: &mut Row, side: Side, slices: u64)
    requires credits { row.old.credits + slices < 2 ^ 64 }
    requires given { row.old.given + slices < 2 ^ 64 }
    requires pays { slices ≤ key_of side row.old }
    ensures { row.new ≡ moved_by side row.old slices }
{
    match side {
        Side::Borrowers => row.credits -= slices,
        Side::Donors => row.credits += slices,
    }
    row.given += slices;
}

/// Moves the row's slices above the level, and one more where it is at the level then and `rest` isn't used up. The
/// answer is how many of the rest it used.
fn move_part(row: &mut Row, side: Side, level: u64, rest: u64) -> u64
    requires { IsOpenRow row.old }
    ensures moved { row.new ≡ moved_by side row.old (amount side level rest row.old) }
    ensures extra { result ≡ extra side level rest row.old }
{
    let part = part_above(row, side, level);
    let at_level = (part < room(row, side)) & (key(row, side) - part == level);
    let extra = u64::from((rest > 0) & at_level);
    move_by(row, side, part + extra);
    extra
}

/// Moves all slices above the level, and of the rest one for each row at the level, by number.
fn spread_at(rows: &mut [Row], side: Side, level: u64, mut rest: u64)
    requires rows_open { All IsOpenRow rows.old }
    ensures { rows.new ≡ all_moved side rows.old (amounts side level rest rows.old) }
{
    for row in rows.iter_mut() {
        rest -= move_part(row, side, level, rest);
    }
}

/// Moves `count` of the `total` slices that a side can move, each by the row that comes first then.
pub fn spread_count(rows: &mut [Row], side: Side, total: u64, count: u64)
    requires users { length rows.old ≤ MOST_USERS }
    requires rows_open { All IsOpenRow rows.old }
    requires total { total ≡ sum_by (movable_of side) rows.old }
    requires count { count ≤ total }
    ensures { Spreads side count rows.old rows.new }
{
    let found = level_for(rows, side, total, count);
    spread_at(rows, side, found.level, count - found.moved);
}
