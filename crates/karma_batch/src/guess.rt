//! Where a search for a level looks next. Nothing here decides what is found, so nothing here has a contract.

use crate::ramp::{Ramps, Sums};

/// How many turns a search follows its guesses alone. From then on every other turn halves what is left, so that it
/// ends after about twice as many turns as a key has bits.
const GUESSES: u8 = 8;

/// What a search has seen so far. It guides the next guess, and nothing more: any guess is right, and a bad one costs a
/// turn.
#[derive(Clone, Copy)]
pub struct Seen {
    /// A level at which too many slices are moved, and how many.
    lower: u64,
    at_lower: u64,
    /// A level at which no more are moved than wanted, and how many.
    upper: u64,
    at_upper: u64,
    turn: u8,
}

impl Seen {
    /// Before the first look: at the lowest level all is moved, and at the highest nothing.
    pub fn first(ramps: Ramps, total: u64) -> Seen {
        Seen {
            lower: ramps.lowest,
            at_lower: total,
            upper: ramps.highest,
            at_upper: 0,
            turn: 0,
        }
    }

    /// Where the ramps would be down if all began at the mean of their tops and moved as many each.
    pub fn first_guess(ramps: Ramps, count: u64) -> u64 {
        let ramp_count = ramps.count as u64;
        let mean = ramps.tops.checked_div(ramps.count as u128).unwrap_or(0);
        let top = u64::try_from(mean).unwrap_or(0);
        top.saturating_sub(count.checked_div(ramp_count).unwrap_or(0))
    }

    /// What is seen with one more look, at the level.
    pub fn after(self, level: u64, sums: Sums, count: u64) -> Seen {
        let turn = self.turn.saturating_add(1);
        if sums.here <= count {
            Seen {
                upper: level,
                at_upper: sums.here,
                turn,
                ..self
            }
        } else {
            Seen {
                lower: level.saturating_add(1),
                at_lower: sums.next,
                turn,
                ..self
            }
        }
    }

    /// The next guess, after a look at the level.
    pub fn guess(self, level: u64, sums: Sums, count: u64) -> u64 {
        if self.turn > GUESSES && self.turn % 2 == 0 {
            return self.lower / 2 + self.upper / 2;
        }
        match along_tangent(level, sums, count) {
            Some(guess) if guess > self.lower && guess < self.upper => guess,
            _ => self.along_chord(count),
        }
    }

    /// Where `count` slices are moved if each level between the two moves as many.
    fn along_chord(self, count: u64) -> u64 {
        let levels = u128::from(self.upper.saturating_sub(self.lower));
        let missing = u128::from(count.saturating_sub(self.at_upper));
        let moved = u128::from(self.at_lower.saturating_sub(self.at_upper));
        let down = missing.wrapping_mul(levels).checked_div(moved).unwrap_or(0);
        self.upper.saturating_sub(u64::try_from(down).unwrap_or(0))
    }
}

/// Where `count` slices are moved if from the level on each level moves as many as the one above it.
fn along_tangent(level: u64, sums: Sums, count: u64) -> Option<u64> {
    let at_each = sums.here.saturating_sub(sums.next);
    if sums.here <= count {
        let levels = (count - sums.here).checked_div(at_each)?;
        Some(level.saturating_sub(levels).saturating_sub(1))
    } else {
        let levels = (sums.here - count - 1).checked_div(at_each)?;
        Some(level.saturating_add(levels))
    }
}
