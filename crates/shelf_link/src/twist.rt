//! A shelf that answers what it is told to.

ghost use Rattle.std.specs.Prelude.{◌≡◌, ◌==◌, [], IfOk, IsOk, OnErr, OnOk, Some, None};
ghost use Rattle.std.specs.Option.{option_copied};
ghost use Rattle.far_io.specs.Faults.{HasCause, counted, one_more};
ghost use Rattle.shelf_link.specs.Blocks.{block_at, with_block, without_block};
ghost use Rattle.shelf_link.specs.Shelves.{answer_of, answered};
ghost use Rattle.shelf_link.specs.Told.{nothing_told, StandsThere, IsSameKind, KeepsOthers, IsWithin, IsGot, Gives};

use crate::kept::Kept;
use crate::shelf::{Got, Shelf, hand_out};
use far_io::{Failed, Raw};
use std::alloc::{AllocError, Global};
use std::marker::Model;

/// A shelf whose listed gets answer other bytes than were put. It tells nothing.
///
/// Gets alone are counted, from 0. One whose number is listed answers the bytes that are listed for it first, and every
/// other get answers what was put. Puts fail for want of memory, and no other call fails. The counts stand still at the
/// greatest u64.
#[derive(Drop)]
pub struct ShelfTwist {
    blocks: Kept,
    answers: Vec<(u64, Raw)>,
    gets: u64,
    faults: u64,
}

impl Model for ShelfTwist {
    ghost use Rattle.shelf_link.specs.Shelves.{ShelfTwistView};

    ghost Value = { ShelfTwistView };

    ghost view = { λ s. record { blocks = s.blocks; answers = s.answers.items; gets = s.gets; faults = s.faults } };
}

// The bytes that are listed first for a number.
fn answer(answers: &[(u64, Raw)], number: u64) -> Option<&[u8]>
    ensures { option_copied result ≡ answer_of answers.now number }
{
    for answer in answers {
        if answer.0 == number {
            return Some(answer.1.items());
        }
    }
    None
}

impl ShelfTwist {
    /// A shelf that holds nothing, and whose gets of the listed numbers answer the bytes that are listed for them.
    pub fn new(alloc: Global, answers: Vec<(u64, Raw)>) -> Self
        ensures { result ≡ record { blocks = []; answers = answers.items; gets = 0; faults = 0 } }
    {
        ShelfTwist {
            blocks: Kept::new(alloc),
            answers,
            gets: 0,
            faults: 0,
        }
    }

    /// How many gets were made.
    pub fn gets(&self) -> u64
        ensures { result ≡ self.now.gets }
    {
        self.gets
    }

    /// How many calls failed.
    pub fn faults(&self) -> u64
        ensures { result ≡ self.now.faults }
    {
        self.faults
    }
}

impl Shelf for ShelfTwist {
    ghost told = { λ _. nothing_told };

    ghost faults = { λ s. counted s.faults };

    fn put(&mut self, block: u64, bytes: &[u8]) -> Result<(), Failed>
        ensures held { OnOk result (StandsThere nothing_told block (Some bytes.now)) }
        ensures others { KeepsOthers nothing_told nothing_told block }
        ensures kind { IsSameKind nothing_told nothing_told }
        ensures cause { HasCause (counted self.old.faults) (counted self.new.faults) result }

        // It fails for want of memory alone.
        ensures ok { OnOk result (self.new ≡ record self.old { blocks = with_block self.old.blocks block bytes.now }) }
        ensures err { OnErr result (self.new ≡ record self.old { faults = one_more self.old.faults }) }
    {
        match self.blocks.put(block, bytes) {
            Ok(()) => Ok(()),
            Err(AllocError) => {
                self.faults = self.faults.saturating_add(1);
                Err(Failed)
            }
        }
    }

    fn get(&mut self, block: u64, out: &mut [u8]) -> Result<Got, Failed>
        ensures gives { IfOk result (Gives nothing_told block out.new) }
        ensures bound { IfOk result (IsWithin out.new) }
        ensures same { nothing_told ≡ nothing_told }
        ensures cause { HasCause (counted self.old.faults) (counted self.new.faults) result }

        // It never fails, and answers what is listed for its number, or else what was put.
        ensures ok { IsOk result }
        ensures answer { IfOk result (IsGot (answered self.old block) out.new) }
        ensures all { self.new ≡ record self.old { gets = one_more self.old.gets } }
    {
        let number = self.gets;
        self.gets = self.gets.saturating_add(1);
        Ok(match answer(self.answers.as_slice(), number) {
            Some(bytes) => hand_out(Some(bytes), out),
            None => hand_out(self.blocks.get(block), out),
        })
    }

    fn remove(&mut self, block: u64) -> Result<(), Failed>
        ensures gone { OnOk result (StandsThere nothing_told block None) }
        ensures others { KeepsOthers nothing_told nothing_told block }
        ensures kind { IsSameKind nothing_told nothing_told }
        ensures cause { HasCause (counted self.old.faults) (counted self.new.faults) result }

        // It never fails.
        ensures ok { IsOk result }
        ensures all { self.new ≡ record self.old { blocks = without_block self.old.blocks block } }
    {
        self.blocks.remove(block);
        Ok(())
    }
}
