//! Quanta of one size of numbers, each timed.

ghost use Rattle.std.specs.Prelude.{◌≤◌};
ghost use Rattle.bench_quantum.specs.declared.rows.TheConstants.{MOST_TIMES};
ghost use Rattle.karma_rule.specs.declared.limits.TheConstants.{MOST_USERS};

use crate::rows::{Size, change_demands};
use bench_lines::{Fault, nanos_since, now};
use karma_batch::batch_quantum;
use karma_rule::Row;
use std::alloc::Global;
use std::rt::Clock;

/// Rows for the most users.
const ROWS: usize = 1024;

/// The rows of users of one size, the seed of their next demands, and the nanoseconds of each quantum so far.
#[derive(Drop)]
pub struct Track {
    size: Size,
    seed: u64,
    rows: [Row; ROWS],
    times: Vec<u64>,
}

fn opening_row(size: Size) -> Row {
    Row {
        demand: 0,
        credits: size.credits,
        given: 0,
        fair: size.share.fair,
        floor: size.share.floor,
        present: true,
    }
}

fn total_given(rows: &[Row]) -> u64 {
    let mut total = 0u64;
    for row in rows {
        total = total.saturating_add(row.given);
    }
    total
}

impl Track {
    pub fn new(alloc: Global, size: Size, seed: u64) -> Track {
        Track {
            size,
            seed,
            rows: [opening_row(size); ROWS],
            times: Vec::new(alloc),
        }
    }

    /// Makes a quantum of the first users with new demands, and times the rule alone.
    pub fn make_quantum<R: Clock>(&mut self, rt: &R, users: u32, times: u32) -> Result<(), Fault>
        requires users { users ≤ MOST_USERS }
        requires times { times ≤ MOST_TIMES }
    {
        let (size, seed) = (self.size, self.seed);
        let rows = &mut self.rows[..users as usize];
        let next = change_demands(rows, size, times, seed);
        let start = now(rt)?;
        batch_quantum(rows);
        let time = nanos_since(rt, start)?;
        self.seed = next;
        self.times.push(time).or(Err(Fault::NoMemory))
    }

    /// How many quanta were made.
    pub fn quanta(&self) -> u64 {
        self.times.len() as u64
    }

    /// How many slices the last quantum gave.
    pub fn given(&self) -> u64 {
        total_given(&self.rows)
    }

    /// The mean of the times without the tenth that are longest: in those the processor was taken away.
    pub fn usual_time(&mut self) -> u64 {
        self.times.as_mut_slice().sort_unstable();
        let usual = self.times.len() - self.times.len() / 10;
        let mut total = 0u64;
        for time in self.times.iter().take(usual) {
            total = total.saturating_add(*time);
        }
        total / (usual as u64).max(1)
    }
}
