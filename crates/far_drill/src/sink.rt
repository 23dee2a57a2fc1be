//! A sink that keeps of what it took its counts and its digest.

ghost use Rattle.std.specs.Prelude.{◌≡◌, ℕ, List, [], length, Ok};
ghost use Rattle.far_io.specs.Faults.{HasCause, never_failing};
ghost use Rattle.far_io.specs.Adds.{Adds, taken, GivesSome};
ghost use Rattle.far_drill.specs.Sink.{StandsFor, DrillTook, summary_of};

use crate::output::Tally;
use far_io::{Failed, Piece, Sink};
use sha2::{Digest, Sha256};
use std::marker::Model;

/// What a drill tells of an output: how many of its lines tell a refusal, how many blocks of quanta begin in it, and
/// its SHA-256. The counts stand still at the greatest u64.
#[derive(Clone, Copy, Debug, PartialEq, Eq)]
pub struct Summary {
    pub refused: u64,
    pub quanta: u64,
    pub digest: [u8; 32],
}

/// A sink that keeps counts and a digest. It takes no memory and never fails. It stands for each list of bytes that has
/// its counts, what it keeps of an unfinished line, and its digest's state.
#[derive(Drop)]
pub struct DrillSink {
    tally: Tally,
    hasher: Sha256,
}

impl Model for DrillSink {
    ghost use Rattle.std.specs.Prelude.{◌≤◌, length};
    ghost use Rattle.far_drill.specs.Sink.{DrillSinkView};

    ghost Value = { DrillSinkView };

    ghost view = { λ s. record { tally = s.tally; hasher = s.hasher } };

    ghost invariant = { λ s. length s.tally.kept ≤ 16 };
}

impl DrillSink {
    /// A sink that took nothing yet.
    pub fn new() -> Self
        ensures { StandsFor result [] }
    {
        DrillSink {
            tally: Tally {
                refused: 0,
                quanta: 0,
                kept: Piece::new(),
            },
            hasher: Sha256::new(),
        }
    }

    /// What is told of the bytes that it took. A line counts once its line end is there.
    pub fn summary(self) -> Summary
        ensures { (bytes : List ℕ) → StandsFor self bytes → result ≡ summary_of bytes }
    {
        Summary {
            refused: self.tally.refused,
            quanta: self.tally.quanta,
            digest: self.hasher.finalize(),
        }
    }
}

impl Sink for DrillSink {
    ghost took = { DrillTook };

    ghost faults = { λ _. never_failing };

    fn give(&mut self, bytes: &[u8]) -> Result<usize, Failed>
        ensures bound { GivesSome result bytes.now }
        ensures bytes { Adds DrillTook self.old self.new (taken result bytes.now) }
        ensures cause { HasCause never_failing never_failing result }

        // It takes each piece whole.
        ensures whole { result ≡ Ok (length bytes.now) }
    {
        self.tally.count_bytes(bytes);
        self.hasher.update(bytes);
        Ok(bytes.len())
    }
}
