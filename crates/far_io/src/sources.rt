//! Sources over bytes in memory.

ghost use Rattle.std.specs.Prelude.{◌≡◌, ◌+◌, ◌-◌, ◌≤◌, ◌↔◌, min, length, drop, take, IfOk, IsErr, OnErr, Contains, Some, Ok};
ghost use Rattle.std.specs.Io.{ReadsAtMost};
ghost use Rattle.far_io.specs.Faults.{HasCause, one_more, counted, never_failing};
ghost use Rattle.far_io.specs.Left.{Takes};

use crate::outside::{Failed, Source};
use crate::raw::Raw;
use std::marker::Model;

// Copies what stands at `at` and after it, as much as fits and at most `piece` bytes, and says how much that was.
fn copy_from(bytes: &[u8], at: usize, piece: usize, out: &mut [u8]) -> usize
    requires { at ≤ length bytes.now }
    ensures count { result ≡ min (min piece (length out.new)) (length bytes.now - at) }
    ensures copied { take result out.new ≡ take result (drop at bytes.now) }
{
    let count = piece.min(out.len()).min(bytes.len() - at);
    out[..count].copy_from_slice(&bytes[at..at + count]);
    count
}

/// A source over bytes in memory. Its calls are counted from 0, and those whose numbers are listed fail. The count of
/// calls stands still at the greatest u64, and so does that of faults.
#[derive(Drop)]
pub struct MemSource {
    bytes: Raw,
    at: usize,
    piece: usize,
    fails: Vec<u64>,
    calls: u64,
    faults: u64,
}

impl Model for MemSource {
    ghost use Rattle.std.specs.Prelude.{◌≤◌, length, drop};
    ghost use Rattle.far_io.specs.Memory.{MemSourceView};

    ghost Value = { MemSourceView };

    ghost view = { λ s. record {
      left = drop s.at s.bytes;
      piece = s.piece;
      fails = s.fails.items;
      calls = s.calls;
      faults = s.faults;
    } };

    ghost invariant = { λ s. (s.at ≤ length s.bytes) × (1 ≤ s.piece) };
}

impl MemSource {
    /// A source of these bytes, of which one call gives at most `piece`, and whose calls of the listed numbers fail.
    pub fn new(bytes: Raw, piece: usize, fails: Vec<u64>) -> Self
        requires { 1 ≤ piece }
        ensures { result ≡ record {
          left = bytes;
          piece = piece;
          fails = fails.items;
          calls = 0;
          faults = 0;
        } }
    {
        MemSource {
            bytes,
            at: 0,
            piece,
            fails,
            calls: 0,
            faults: 0,
        }
    }

    /// How many calls failed.
    pub fn faults(&self) -> u64
        ensures { result ≡ self.now.faults }
    {
        self.faults
    }
}

impl Source for MemSource {
    ghost left = { λ s. Some s.left };

    ghost faults = { λ s. counted s.faults };

    fn take(&mut self, out: &mut [u8]) -> Result<usize, Failed>
        ensures bound { ReadsAtMost result out.new }
        ensures bytes { Takes (Some self.old.left) (Some self.new.left) result out.new }
        ensures cause { HasCause (counted self.old.faults) (counted self.new.faults) result }

        // It fails exactly at the calls that were listed, and otherwise gives as much as it may.
        ensures failed { IsErr result ↔ Contains self.old.fails self.old.calls }
        ensures count { IfOk result (λ count. count ≡
            min (min self.old.piece (length out.new)) (length self.old.left)) }
        ensures ok { IfOk result (λ count. self.new ≡ record self.old {
          left = drop count self.old.left;
          calls = one_more self.old.calls;
        }) }
        ensures err { OnErr result (self.new ≡ record self.old {
          calls = one_more self.old.calls;
          faults = one_more self.old.faults;
        }) }
    {
        let call = self.calls;
        self.calls = self.calls.saturating_add(1);
        if self.fails.contains(&call) {
            self.faults = self.faults.saturating_add(1);
            return Err(Failed);
        }
        let count = copy_from(self.bytes.items(), self.at, self.piece, out);
        self.at += count;
        Ok(count)
    }
}

/// A source over bytes in memory that never fails.
#[derive(Drop)]
pub struct SureSource {
    bytes: Raw,
    at: usize,
    piece: usize,
}

impl Model for SureSource {
    ghost use Rattle.std.specs.Prelude.{◌≤◌, length, drop};
    ghost use Rattle.far_io.specs.Memory.{SureSourceView};

    ghost Value = { SureSourceView };

    ghost view = { λ s. record { left = drop s.at s.bytes; piece = s.piece } };

    ghost invariant = { λ s. (s.at ≤ length s.bytes) × (1 ≤ s.piece) };
}

impl SureSource {
    /// A source of these bytes, of which one call gives at most `piece`.
    pub fn new(bytes: Raw, piece: usize) -> Self
        requires { 1 ≤ piece }
        ensures { result ≡ record { left = bytes; piece = piece } }
    {
        SureSource {
            bytes,
            at: 0,
            piece,
        }
    }
}

impl Source for SureSource {
    ghost left = { λ s. Some s.left };

    ghost faults = { λ _. never_failing };

    fn take(&mut self, out: &mut [u8]) -> Result<usize, Failed>
        ensures bound { ReadsAtMost result out.new }
        ensures bytes { Takes (Some self.old.left) (Some self.new.left) result out.new }
        ensures cause { HasCause never_failing never_failing result }

        // It never fails, and gives as much as it may.
        ensures gives { result ≡
            Ok (min (min self.old.piece (length out.new)) (length self.old.left)) }
        ensures ok { IfOk result (λ count. self.new ≡ record self.old {
          left = drop count self.old.left;
        }) }
    {
        let count = copy_from(self.bytes.items(), self.at, self.piece, out);
        self.at += count;
        Ok(count)
    }
}
