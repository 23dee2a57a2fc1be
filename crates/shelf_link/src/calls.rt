//! The calls of an object, counted, of which those that are listed fail.

ghost use Rattle.std.specs.Prelude.{◌≡◌, ◌+◌, ◌^◌, ◌<◌, ◌==◌, ◌↔◌, Contains, length, if◌then◌else◌};
ghost use Rattle.std.specs.Prelude.{IsTrue, IsSome, IfSome, IsErr, OnOk, OnErr};
ghost use Rattle.std.specs.List.{position};
ghost use Rattle.shelf_link.specs.Calls.{no_calls, with_call, with_fault, without_first};
ghost use Rattle.far_io.specs.Faults.{Follows, Rose, HasCause, counted, one_more};

use far_io::Failed;
use std::marker::Model;

/// How many calls were made and how many failed, and which are still to fail. The counts stand still at the greatest
/// u64.
#[derive(Drop)]
pub(crate) struct Calls {
    fails: Vec<u64>,
    calls: u64,
    faults: u64,
}

impl Model for Calls {
    ghost use Rattle.shelf_link.specs.Calls.{CallsView};

    ghost Value = { CallsView };

    ghost view = { λ c. record { fails = c.fails.items; calls = c.calls; faults = c.faults } };
}

// The first place where a number stands in a list.
fn first_place(list: &[u64], number: u64) -> Option<usize>
    ensures place { result ≡ position (λ x. x == number) list.now }
    ensures found { IsSome result ↔ Contains list.now number }
    ensures bound { IfSome result (λ at. at < length list.now) }
{
    list.iter().position(|x| *x == number)
}

// Takes a number off a list, once, and says whether it stood there.
fn take_off(fails: &mut Vec<u64>, call: u64) -> bool
    ensures listed { IsTrue result ↔ Contains fails.old.items call }
    ensures off { fails.new.items ≡ without_first call fails.old.items }
    ensures count { length fails.new.items + (if result then 1 else 0) ≡ length fails.old.items }
{
    match first_place(fails.as_slice(), call) {
        Some(at) => {
            fails.remove(at);
            true
        }
        None => false,
    }
}

impl Calls {
    /// No call yet. Those whose numbers are listed, from 0, are to fail.
    pub(crate) fn new(fails: Vec<u64>) -> Calls
        ensures { result ≡ no_calls fails.items }
    {
        Calls {
            fails,
            calls: 0,
            faults: 0,
        }
    }

    /// Counts a call, and takes it off the list. It fails exactly where it is listed.
    pub(crate) fn begin(&mut self) -> Result<(), Failed>
        ensures listed { IsErr result ↔ Contains self.old.fails self.old.calls }
        ensures ok { OnOk result (self.new ≡ with_call self.old) }
        ensures err { OnErr result (self.new ≡ with_fault self.old) }

        ensures cause { HasCause (counted self.old.faults) (counted self.new.faults) result }

        // Each fault is of a call that was listed.
        ensures most { self.old.faults + length self.old.fails < 2 ^ 64 →
            self.new.faults + length self.new.fails ≡ self.old.faults + length self.old.fails }
    {
        let call = self.calls;
        self.calls = self.calls.saturating_add(1);
        if take_off(&mut self.fails, call) {
            self.faults = self.faults.saturating_add(1);
            return Err(Failed);
        }
        Ok(())
    }

    /// Counts a fault of a call that was begun.
    pub(crate) fn fail(&mut self) -> Failed
        ensures counted { self.new ≡ record self.old { faults = one_more self.old.faults } }
        ensures follows { Follows (counted self.old.faults) (counted self.new.faults) }
        ensures rose { Rose (counted self.old.faults) (counted self.new.faults) }
    {
        self.faults = self.faults.saturating_add(1);
        Failed
    }

    /// How many calls were made.
    pub(crate) fn calls(&self) -> u64
        ensures { result ≡ self.now.calls }
    {
        self.calls
    }

    /// How many calls failed.
    pub(crate) fn faults(&self) -> u64
        ensures { result ≡ self.now.faults }
    {
        self.faults
    }
}
