//! Sets of numbers below a bound, in room that is reserved when they are made or grow. Each other call takes a few
//! steps, whatever the bound: six levels of bits, each saying which words of the level below aren't zero.
#![tactic(auto)]

ghost use Rattle.std.specs.Prelude.{◌≡◌, ◌+◌, ◌<◌, ◌≤◌, length, not, IfOk, OnErr, OnOk};
ghost use Rattle.id_set.specs.IdSet as set;

use crate::bits::{Bits, Flags, Level};
use std::alloc::{AllocError, Global};
use std::marker::Model;

mod bits;

type Members = Level<Level<Level<Level<Level<Flags>>>>>;

/// A set of numbers below a bound.
#[derive(Drop)]
pub struct IdSet {
    members: Members,
    count: u32,
}

impl Model for IdSet {
    ghost use Rattle.std.specs.Prelude.{◌≡◌, Bool, List};
    ghost use Rattle.id_set.specs.IdSet as set;

    ghost Value = { List Bool };

    ghost view = { λ s. s.members };

    ghost invariant = { λ s. s.count ≡ set.count s.members };
}

impl IdSet {
    /// The set of no number below the bound.
    pub fn new(alloc: Global, bound: u32) -> Result<IdSet, AllocError>
        ensures { IfOk result (λ made. made ≡ set.empty bound) }
    {
        Ok(IdSet {
            members: Bits::filled(alloc, bound, false)?,
            count: 0,
        })
    }

    /// The set of every number below the bound.
    pub fn full(alloc: Global, bound: u32) -> Result<IdSet, AllocError>
        ensures { IfOk result (λ made. made ≡ set.full bound) }
    {
        Ok(IdSet {
            members: Bits::filled(alloc, bound, true)?,
            count: bound,
        })
    }

    fn filled(alloc: Global, bound: u32, member: bool) -> Result<IdSet, AllocError>
        ensures { IfOk result (λ made. made ≡ set.filled bound member) }
    {
        if member {
            IdSet::full(alloc, bound)
        } else {
            IdSet::new(alloc, bound)
        }
    }

    /// Raises the bound. The numbers below the old one stay members or not, and those from it on are members or not,
    /// as `member` says. It takes as many steps as the old bound has numbers, so a set whose bound is doubled each time
    /// takes a few for each number. For its time it holds both sets. Where no memory is found, nothing has changed.
    pub fn grow(&mut self, alloc: Global, bound: u32, member: bool) -> Result<(), AllocError>
        requires { length self.old ≤ bound }
        ensures grown { OnOk result (self.new ≡ set.grown self.old bound member) }
        ensures same { OnErr result (self.new ≡ self.old) }
    {
        let mut grown = IdSet::filled(alloc, bound, member)?;
        for id in 0..self.bound() {
            grown.set(id, self.contains(id));
        }
        *self = grown;
        Ok(())
    }

    /// The number below which every member is.
    pub fn bound(&self) -> u32
        ensures { result ≡ length self.now }
    {
        self.members.bound()
    }

    /// How many members there are.
    pub fn count(&self) -> u32
        ensures { result ≡ set.count self.now }
    {
        self.count
    }

    pub fn contains(&self, id: u32) -> bool
        ensures { result ≡ set.contains self.now id }
    {
        self.members.contains(id)
    }

    /// Adds a number, and says whether it wasn't a member before.
    pub fn insert(&mut self, id: u32) -> bool
        requires { id < length self.old }
        ensures members { self.new ≡ set.insert self.old id }
        ensures added { result ≡ not (set.contains self.old id) }
    {
        if self.members.contains(id) {
            return false;
        }
        self.members.insert(id);
        self.count += 1;
        true
    }

    /// Takes a number out, and says whether it was a member before.
    pub fn remove(&mut self, id: u32) -> bool
        ensures members { self.new ≡ set.remove self.old id }
        ensures removed { result ≡ set.contains self.old id }
    {
        if !self.members.contains(id) {
            return false;
        }
        self.members.remove(id);
        self.count -= 1;
        true
    }

    /// Makes a number a member or not.
    pub fn set(&mut self, id: u32, member: bool)
        requires { id < length self.old }
        ensures { self.new ≡ set.with self.old id member }
    {
        if member {
            self.insert(id);
        } else {
            self.remove(id);
        }
    }

    /// The lowest member.
    pub fn first(&self) -> Option<u32>
        ensures { result ≡ set.first self.now }
    {
        self.members.first()
    }
}
