//! Slices that a home gives back.
ghost use Rattle.std.specs.Prelude.{◌≡◌, ℕ, ◌↔◌, IsSome, None};
ghost use Rattle.shelf_link.specs.Told.{IsSameKind};
ghost use Rattle.block_seats.specs.Purses.{next_idle};
ghost use Rattle.block_seats.specs.Seatings.{granted_of};
ghost use Rattle.block_home.specs.Calls.{Carries};
ghost use Rattle.block_home.specs.Yields.{IsYieldEnd, YieldCauses};

use super::Home;
use crate::end::{StoreFault, YieldEnd};
use shelf_link::Shelf;

impl<K: Shelf> Home<K> {
    /// Gives back the slice of lowest id without a block, worn or not. Where each slice that is held has a block, it gives
    /// the one of lowest id, and parks its block first. Where the store fails then, the block stays in its slice.
    pub fn yield_one(&mut self) -> YieldEnd
        ensures yielded { IsYieldEnd self.old.user self.old.seats self.new.seats result }
        ensures none { (result ≡ YieldEnd.NoneHeld) ↔ (granted_of self.old.seats ≡ 0) }
        ensures holds { Carries self.old.user (K.told self.old.shelf) self.old.seats.blocks (K.told self.new.shelf) self.new.seats.blocks }
        ensures cause { YieldCauses (K.faults self.old.shelf) (K.faults self.new.shelf) result }
        ensures kind { IsSameKind (K.told self.old.shelf) (K.told self.new.shelf) }

        // The store is called only where each slice has a block.
        ensures quiet { IsSome (next_idle self.old.seats.purse) → self.new.shelf ≡ self.old.shelf }
        ensures rest { self.new ≡ record self.old { seats = self.new.seats; shelf = self.new.shelf } }
    {
        match self.seats.take_idle() {
            Some(slice) => YieldEnd::Slice(slice),
            None => self.yield_seated(),
        }
    }

    // Parks the block in the slice of lowest id, and gives that slice back.
    fn yield_seated(&mut self) -> YieldEnd
        requires full { next_idle self.old.seats.purse ≡ None }
        requires in_order { self.old.seats.strays ≡ 0 }
        ensures yielded { IsYieldEnd self.old.user self.old.seats self.new.seats result }
        ensures none { (result ≡ YieldEnd.NoneHeld) ↔ (granted_of self.old.seats ≡ 0) }
        ensures holds { Carries self.old.user (K.told self.old.shelf) self.old.seats.blocks (K.told self.new.shelf) self.new.seats.blocks }
        ensures cause { YieldCauses (K.faults self.old.shelf) (K.faults self.new.shelf) result }
        ensures kind { IsSameKind (K.told self.old.shelf) (K.told self.new.shelf) }
        ensures rest { self.new ≡ record self.old { seats = self.new.seats; shelf = self.new.shelf } }
    {
        let Some(block) = self.seats.lowest_seated() else {
            return YieldEnd::NoneHeld;
        };
        match self.park(block) {
            Ok(()) => match self.seats.take_idle() {
                Some(slice) => YieldEnd::Slice(slice),
                None => unreachable!(),
            },
            Err(StoreFault) => YieldEnd::StoreFault,
        }
    }
}
