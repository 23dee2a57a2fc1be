//! Ramps: what each row moves while a level falls.

ghost use Rattle.std.specs.Prelude.{◌≡◌, ℕ, ◌+◌, ◌<◌, ◌≤◌, length, take, sum_by, All};
ghost use Rattle.karma_rule.specs.OpenRow.{IsOpenRow};
ghost use Rattle.karma_batch.specs.Levels.{above, over};

use crate::side::{Side, key, room};
use karma_rule::{CREDITS_TOP, MOST_DEMAND, MOST_USERS, Row};

/// How many slices the rows of a quantum move at most.
pub const MOST_MOVED: u64 = MOST_USERS * MOST_DEMAND;

/// What a row moves while the level falls: one slice for each level from `to` down to `from`.
#[derive(Clone, Copy)]
pub struct Ramp {
    pub from: u64,
    pub to: u64,
}

/// The first `count` ramps of a buffer. The other numbers only guide a search: the sum of their `to`, and the levels
/// between which all lie.
#[derive(Clone, Copy)]
pub struct Ramps {
    pub count: usize,
    pub tops: u128,
    pub lowest: u64,
    pub highest: u64,
}

/// How many slices ramps move until all are down at a level, and at the next level above.
#[derive(Clone, Copy)]
pub struct Sums {
    pub here: u64,
    pub next: u64,
}

/// Writes the ramps of the rows that can move a slice.
///
/// Each row's ramp is written, and the next one over it where the row can move nothing: so no branch depends on the
/// rows, which a processor would guess wrong as often as not.
pub fn gather(rows: &[Row], side: Side, ramps: &mut [Ramp]) -> Ramps
    requires rows_open { All IsOpenRow rows.now }
    requires enough { length rows.now ≤ length ramps.old }
    ensures within { result.count ≤ length rows.now }
    ensures moved { (level : ℕ) → sum_by (over level) (take result.count ramps.new)
        ≡ sum_by (above side level) rows.now }
{
    let mut count = 0usize;
    let mut tops = 0u128;
    let mut lowest = CREDITS_TOP;
    let mut highest = 0;
    for row in rows {
        let room = room(row, side);
        let to = key(row, side);
        let from = to - room;
        ramps[count] = Ramp { from, to };
        let moves = room > 0;
        count += usize::from(moves);
        tops = tops.wrapping_add(u128::from(if moves { to } else { 0 }));
        lowest = lowest.min(from);
        highest = highest.max(to);
    }
    Ramps {
        count,
        tops,
        lowest,
        highest,
    }
}

/// How many slices the ramp moves until it is down at the level.
fn over_level(ramp: Ramp, level: u64) -> u64
    ensures { result ≡ over level ramp }
{
    ramp.to.saturating_sub(ramp.from.max(level))
}

/// How many slices the ramps move until all are down at the level, and at the next one.
pub fn sums_over(ramps: &[Ramp], level: u64) -> Sums
    requires level { level < CREDITS_TOP }
    requires small { sum_by (over level) ramps.now ≤ MOST_MOVED }
    ensures here { result.here ≡ sum_by (over level) ramps.now }
    ensures next { result.next ≡ sum_by (over (level + 1)) ramps.now }
{
    let mut here = 0;
    let mut at_level = 0;
    for ramp in ramps {
        here += over_level(*ramp, level);
        at_level += u64::from((ramp.from <= level) & (level < ramp.to));
    }
    Sums {
        here,
        next: here - at_level,
    }
}
