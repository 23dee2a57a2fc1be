//! A shelf that holds nothing.

ghost use Rattle.std.specs.Prelude.{◌≡◌, ◌↔◌, Contains, IfOk, IsErr, OnErr, OnOk, Some, None};
ghost use Rattle.far_io.specs.Faults.{HasCause};
ghost use Rattle.shelf_link.specs.Calls.{no_calls, with_call, with_fault, faults_listed};
ghost use Rattle.shelf_link.specs.Told.{void_told, StandsThere, IsSameKind, KeepsOthers, IsWithin, Gives};

use crate::calls::Calls;
use crate::shelf::{Got, Shelf};
use far_io::Failed;
use std::marker::Model;

/// A shelf that holds nothing. It tells no content, and it tells that it is void. Its calls are counted together, from
/// 0; exactly those whose numbers are listed fail, so it tells the length of that list as its greatest count of faults.
/// It takes no memory.
#[derive(Drop)]
pub struct NullShelf {
    calls: Calls,
}

impl Model for NullShelf {
    ghost use Rattle.std.specs.Prelude.{◌+◌, ◌^◌, ◌<◌, length};
    ghost use Rattle.shelf_link.specs.Calls.{CallsView};

    ghost Value = { CallsView };

    ghost view = { λ s. s.calls };

    ghost invariant = { λ s. s.calls.faults + length s.calls.fails < 2 ^ 64 };
}

impl NullShelf {
    /// A shelf whose calls of the listed numbers fail.
    pub fn new(fails: Vec<u64>) -> Self
        ensures { result ≡ no_calls fails.items }
    {
        NullShelf {
            calls: Calls::new(fails),
        }
    }

    /// How many calls were made.
    pub fn calls(&self) -> u64
        ensures { result ≡ self.now.calls }
    {
        self.calls.calls()
    }

    /// How many calls failed.
    pub fn faults(&self) -> u64
        ensures { result ≡ self.now.faults }
    {
        self.calls.faults()
    }
}

impl Shelf for NullShelf {
    ghost told = { λ _. void_told };

    ghost faults = { faults_listed };

    fn put(&mut self, _block: u64, _bytes: &[u8]) -> Result<(), Failed>
        ensures held { OnOk result (StandsThere void_told _block (Some _bytes.now)) }
        ensures others { KeepsOthers void_told void_told _block }
        ensures kind { IsSameKind void_told void_told }
        ensures cause { HasCause (faults_listed self.old) (faults_listed self.new) result }

        // It fails exactly at the calls that were listed.
        ensures listed { IsErr result ↔ Contains self.old.fails self.old.calls }
        ensures ok { OnOk result (self.new ≡ with_call self.old) }
        ensures err { OnErr result (self.new ≡ with_fault self.old) }
    {
        self.calls.begin()
    }

    fn get(&mut self, _block: u64, _out: &mut [u8]) -> Result<Got, Failed>
        ensures gives { IfOk result (Gives void_told _block _out.new) }
        ensures bound { IfOk result (IsWithin _out.new) }
        ensures same { void_told ≡ void_told }
        ensures cause { HasCause (faults_listed self.old) (faults_listed self.new) result }

        // It fails exactly at the calls that were listed, and else answers Absent.
        ensures listed { IsErr result ↔ Contains self.old.fails self.old.calls }
        ensures absent { IfOk result (λ got. got ≡ Got.Absent) }
        ensures ok { OnOk result (self.new ≡ with_call self.old) }
        ensures err { OnErr result (self.new ≡ with_fault self.old) }
    {
        self.calls.begin()?;
        Ok(Got::Absent)
    }

    fn remove(&mut self, _block: u64) -> Result<(), Failed>
        ensures gone { OnOk result (StandsThere void_told _block None) }
        ensures others { KeepsOthers void_told void_told _block }
        ensures kind { IsSameKind void_told void_told }
        ensures cause { HasCause (faults_listed self.old) (faults_listed self.new) result }

        // It fails exactly at the calls that were listed.
        ensures listed { IsErr result ↔ Contains self.old.fails self.old.calls }
        ensures ok { OnOk result (self.new ≡ with_call self.old) }
        ensures err { OnErr result (self.new ≡ with_fault self.old) }
    {
        self.calls.begin()
    }
}
