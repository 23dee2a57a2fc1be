//! Sinks that keep in memory what they took.

ghost use Rattle.std.specs.Prelude.{◌≡◌, ◌+◌, ◌-◌, ◌<◌, ◌≤◌, ◌↔◌, [], ◌++◌, length, take, IfOk, IsErr, OnErr, OnOk, Contains};
ghost use Rattle.far_io.specs.Faults.{HasCause, one_more, counted};
ghost use Rattle.far_io.specs.Adds.{Adds, taken, GivesSome};
ghost use Rattle.far_io.specs.Memory.{MemSinkTook, SureSinkTook};

use crate::outside::{Failed, Sink};
use crate::raw::Raw;
use std::alloc::{AllocError, Global};
use std::marker::Model;

/// A sink that keeps the bytes that it took. Its calls are counted from 0; those whose numbers are listed fail, and
/// those for which no memory is found. The count of calls stands still at the greatest u64, and so does that of faults.
#[derive(Drop)]
pub struct MemSink {
    bytes: Raw,
    fails: Vec<u64>,
    calls: u64,
    faults: u64,
}

impl Model for MemSink {
    ghost use Rattle.far_io.specs.Memory.{MemSinkView};

    ghost Value = { MemSinkView };

    ghost view = { λ s. record { bytes = s.bytes; fails = s.fails.items; calls = s.calls; faults = s.faults } };
}

impl MemSink {
    /// A sink that took nothing yet, and whose calls of the listed numbers fail.
    pub fn new(alloc: Global, fails: Vec<u64>) -> Self
        ensures { result ≡ record { bytes = []; fails = fails.items; calls = 0; faults = 0 } }
    {
        MemSink {
            bytes: Raw::new(alloc),
            fails,
            calls: 0,
            faults: 0,
        }
    }

    /// The bytes that it took.
    pub fn bytes(&self) -> &[u8]
        ensures { result.now ≡ self.now.bytes }
    {
        self.bytes.items()
    }

    /// How many calls were made.
    pub fn calls(&self) -> u64
        ensures { result ≡ self.now.calls }
    {
        self.calls
    }

    /// How many calls failed.
    pub fn faults(&self) -> u64
        ensures { result ≡ self.now.faults }
    {
        self.faults
    }
}

impl Sink for MemSink {
    ghost took = { MemSinkTook };

    ghost faults = { λ s. counted s.faults };

    fn give(&mut self, bytes: &[u8]) -> Result<usize, Failed>
        ensures bound { GivesSome result bytes.now }
        ensures bytes { Adds MemSinkTook self.old self.new (taken result bytes.now) }
        ensures cause { HasCause (counted self.old.faults) (counted self.new.faults) result }

        // It fails at the calls that were listed, else for want of memory alone, and takes a whole piece otherwise.
        ensures listed { Contains self.old.fails self.old.calls → IsErr result }
        ensures whole { IfOk result (λ count. count ≡ length bytes.now) }
        ensures ok { OnOk result (self.new ≡ record self.old {
          bytes = self.old.bytes ++ bytes.now;
          calls = one_more self.old.calls;
        }) }
        ensures err { OnErr result (self.new ≡ record self.old {
          calls = one_more self.old.calls;
          faults = one_more self.old.faults;
        }) }
    {
        let call = self.calls;
        self.calls = self.calls.saturating_add(1);
        if self.fails.contains(&call) || self.bytes.extend_from_slice(bytes).is_err() {
            self.faults = self.faults.saturating_add(1);
            return Err(Failed);
        }
        Ok(bytes.len())
    }
}

/// A sink with room for so many bytes, which it reserves when it is made. It takes no memory afterwards.
#[derive(Drop)]
pub struct SureSink {
    bytes: Vec<u8>,
    len: usize,
    faults: u64,
}

impl Model for SureSink {
    ghost use Rattle.std.specs.Prelude.{◌-◌, ◌≤◌, take, vec_len};
    ghost use Rattle.far_io.specs.Memory.{SureSinkView};

    ghost Value = { SureSinkView };

    ghost view = { λ s. record {
      bytes = take s.len s.bytes.items;
      room = vec_len s.bytes - s.len;
      faults = s.faults;
    } };

    ghost invariant = { λ s. s.len ≤ vec_len s.bytes };
}

impl SureSink {
    /// A sink that took nothing yet, with room for `bytes` bytes.
    pub fn new(alloc: Global, bytes: usize) -> Result<Self, AllocError>
        ensures { IfOk result (λ sink. sink ≡ record { bytes = []; room = bytes; faults = 0 }) }
    {
        Ok(SureSink {
            bytes: vec![in alloc; 0u8; bytes]?,
            len: 0,
            faults: 0,
        })
    }

    /// The bytes that it took.
    pub fn bytes(&self) -> &[u8]
        ensures { result.now ≡ self.now.bytes }
    {
        &self.bytes[..self.len]
    }

    /// How many calls failed.
    pub fn faults(&self) -> u64
        ensures { result ≡ self.now.faults }
    {
        self.faults
    }
}

impl Sink for SureSink {
    ghost took = { SureSinkTook };

    ghost faults = { λ s. counted s.faults };

    fn give(&mut self, bytes: &[u8]) -> Result<usize, Failed>
        ensures bound { GivesSome result bytes.now }
        ensures bytes { Adds SureSinkTook self.old self.new (taken result bytes.now) }
        ensures cause { HasCause (counted self.old.faults) (counted self.new.faults) result }

        // It fails exactly where the room that is left is too small, and takes a whole piece otherwise.
        ensures full { IsErr result ↔ (self.old.room < length bytes.now) }
        ensures whole { IfOk result (λ count. count ≡ length bytes.now) }
        ensures ok { OnOk result (self.new ≡ record self.old {
          bytes = self.old.bytes ++ bytes.now;
          room = self.old.room - length bytes.now;
        }) }
        ensures err { OnErr result (self.new ≡ record self.old {
          faults = one_more self.old.faults;
        }) }
    {
        if self.bytes.len() - self.len < bytes.len() {
            self.faults = self.faults.saturating_add(1);
            return Err(Failed);
        }
        let end = self.len + bytes.len();
        self.bytes[self.len..end].copy_from_slice(bytes);
        self.len = end;
        Ok(bytes.len())
    }
}
