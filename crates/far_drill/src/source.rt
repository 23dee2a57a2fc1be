//! A source that tells the script.

ghost use Rattle.std.specs.Prelude.{◌≡◌, Some};
ghost use Rattle.std.specs.Io.{ReadsAtMost};
ghost use Rattle.far_io.specs.Faults.{HasCause, never_failing};
ghost use Rattle.far_io.specs.Left.{Takes};
ghost use Rattle.far_drill.specs.Script.{drill_text};

use crate::script::{Place, push_next};
use far_io::{Failed, Piece, Source};
use std::marker::Model;

/// A source that tells the script of a drill, a line or less at a time. It takes no memory and never fails.
#[derive(Drop)]
pub struct DrillSource {
    piece: Piece,
    at: usize,
    place: Place,
}

impl Model for DrillSource {
    ghost use Rattle.std.specs.Prelude.{◌≤◌, ◌++◌, length, drop};
    ghost use Rattle.far_drill.specs.Script.{text_of};
    ghost use Rattle.far_drill.specs.Source.{DrillSourceView, IsPlace, lines_left};

    ghost Value = { DrillSourceView };

    ghost view = { λ s. record { left = drop s.at s.piece ++ text_of (lines_left s.place) } };

    ghost invariant = { λ s. (s.at ≤ length s.piece) × IsPlace s.place };
}

impl DrillSource {
    /// The script of this start with so many drawn lines after its twelve first ones.
    pub fn new(start: u64, size: u64) -> Self
        ensures { result ≡ record { left = drill_text start size } }
    {
        DrillSource {
            piece: Piece::new(),
            at: 0,
            place: Place {
                first: 0,
                drawn: 0,
                size,
                state: start,
            },
        }
    }
}

impl Source for DrillSource {
    ghost left = { λ s. Some s.left };

    ghost faults = { λ _. never_failing };

    fn take(&mut self, out: &mut [u8]) -> Result<usize, Failed>
        ensures bound { ReadsAtMost result out.new }
        ensures bytes { Takes (Some self.old.left) (Some self.new.left) result out.new }
        ensures cause { HasCause never_failing never_failing result }
    {
        if self.at == self.piece.bytes().len() {
            self.piece.clear();
            self.at = 0;
            push_next(&mut self.piece, &mut self.place);
        }
        let waiting = &self.piece.bytes()[self.at..];
        let count = waiting.len().min(out.len());
        out[..count].copy_from_slice(&waiting[..count]);
        self.at += count;
        Ok(count)
    }
}
