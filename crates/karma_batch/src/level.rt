//! The level down to which a side moves a count of slices.

ghost use Rattle.std.specs.Prelude.{◌≡◌, ℕ, ◌-◌, ◌<◌, ◌≤◌, length, sum_by, All};
ghost use Rattle.karma_rule.specs.OpenRow.{IsOpenRow};
ghost use Rattle.karma_batch.specs.Levels.{movable_of, above, over};

use crate::guess::Seen;
use crate::ramp::{MOST_MOVED, Ramp, Ramps, gather, sums_over};
use crate::side::Side;
use karma_rule::{CREDITS_TOP, MOST_FAIR, MOST_USERS, Row};

/// The most rows of a quantum.
const MOST_ROWS: usize = MOST_USERS as usize;

/// A level, and how many slices a side moves until all its keys are down there.
#[derive(Clone, Copy)]
pub struct Level {
    pub level: u64,
    pub moved: u64,
}

/// The lowest level down to which the ramps move no more than `count` of all their slices.
fn search(ramps: &[Ramp], first: Ramps, total: u64, count: u64) -> Level
    requires small { (level : ℕ) → sum_by (over level) ramps.now ≤ MOST_MOVED }
    requires top { sum_by (over CREDITS_TOP) ramps.now ≡ 0 }
    requires some { count < sum_by (over 0) ramps.now }
    ensures fits { result.moved ≤ count }
    ensures moved { result.moved ≡ sum_by (over result.level) ramps.now }
    ensures tight { count < sum_by (over (result.level - 1)) ramps.now }
{
    let mut low = 1;
    let mut high = CREDITS_TOP;
    let mut moved = 0;
    let mut seen = Seen::first(first, total);
    let mut guess = Seen::first_guess(first, count);
    while low < high {
        let middle = guess.clamp(low, high - 1);
        let sums = sums_over(ramps, middle);
        if sums.here <= count {
            high = middle;
            moved = sums.here;
        } else if sums.next <= count {
            return Level {
                level: middle + 1,
                moved: sums.next,
            };
        } else {
            low = middle + 2;
        }
        seen = seen.after(middle, sums, count);
        guess = seen.guess(middle, sums, count);
    }
    Level { level: low, moved }
}

/// The lowest level down to which the side moves no more than `count` slices of the `total` that it can move.
pub fn level_for(rows: &[Row], side: Side, total: u64, count: u64) -> Level
    requires users { length rows.now ≤ MOST_USERS }
    requires rows_open { All IsOpenRow rows.now }
    requires total { total ≡ sum_by (movable_of side) rows.now }
    ensures moved { result.moved ≡ sum_by (above side result.level) rows.now }
    ensures fits { result.moved ≤ count }
    ensures tight { 0 < result.level → count < sum_by (above side (result.level - 1)) rows.now }
{
    if total <= count {
        return Level {
            level: 0,
            moved: total,
        };
    }
    let mut ramps = [Ramp { from: 0, to: 0 }; MOST_ROWS];
    let first = gather(rows, side, &mut ramps);
    search(&ramps[..first.count], first, total, count)
}
