//! Queues in a home: each is a list of items, in blocks that are filled one after the other.
//!
//! A push writes behind the last item of the last block, or makes a block. A pop moves a mark, which the queue keeps of
//! its first block, and ends a block whose items are all read. How many items there are, and what the calls do to
//! slices and blocks, holds over every store. The items themselves are spoken of by way of every map from block numbers
//! to bytes that the home holds.
#![tactic(auto)]

ghost use Rattle.std.specs.Prelude.{◌≡◌, ◌≢◌, ◌↔◌, ◌+◌, ◌++◌, ◌<◌, ◌≤◌, [], List, ℕ, length, take, slice_get, vec_capacity, IsTrue, IsSome, IsNone, IsErr, IfSome, IfOk, IfErr, OnOk, OnErr, Ok, Err, None};
ghost use Rattle.std.specs.Option.{unwrap_or};
ghost use Rattle.far_io.specs.Faults.{Follows, HasCause};
ghost use Rattle.far_words.specs.declared.limits.TheConstants.{MOST_IN_QUEUE};
ghost use Rattle.slice_seq.specs.Ascending.{ascending};
ghost use Rattle.shelf_link.specs.Blocks as map;
ghost use Rattle.shelf_link.specs.Told.{IsSameKind};
ghost use Rattle.block_seats.specs.Seatings.{SeatingView, IsNewNumber, open_of, used_of, granted_of};
ghost use Rattle.block_home.specs.Homes.{room_of};
ghost use Rattle.block_home.specs.Stored.{Causes, IsStoreEnd};
ghost use Rattle.block_home.specs.Holding.{Holds};
ghost use Rattle.block_home.specs.Calls.{Carries, KeepsLengths};
ghost use Rattle.queue_block.specs.Items.{item_size};
ghost use Rattle.queue_block.specs.Queues.{QueueBlock, unread, pushed_into, pushed, popped, popped_out};

use crate::items::{item_piece, read_item};
use crate::marks::{Mark, list_numbers, make_room, target};
use crate::moves::{place_item, take_first};
use block_home::{Home, HomeEnd, StoreFault};
use block_list::{count_parked, cut_blocks, load_blocks, park_numbers};
use far_words::Blob;
use queue_block::HEAD;
use shelf_link::Shelf;
use std::alloc::Global;
use std::collections::VecDeque;
use std::marker::Model;

mod items;
mod marks;
mod moves;

/// A queue: what it keeps of each of its blocks, and how many items it has.
///
/// Its items stand in the home alone, so each call is handed the home that the queue was made in.
#[derive(Drop)]
pub struct QueueBody {
    alloc: Global,
    marks: VecDeque<Mark>,
    /// How many items weren't read.
    count: u64,
    /// Room for the numbers of all blocks, so that listing them takes no memory.
    numbers: Vec<u64>,
}

impl Model for QueueBody {
    ghost use Rattle.std.specs.Prelude.{◌≡◌, ◌≤◌, vec_capacity};
    ghost use Rattle.std.specs.VecDeque.{deque_len};
    ghost use Rattle.block_queue.specs.Queues.{QueueView, count_of};

    ghost Value = { QueueView };

    ghost view = { λ q. q.marks.items };

    ghost invariant = { λ q. (q.count ≡ count_of q.marks.items) × (deque_len q.marks ≤ vec_capacity q.numbers) };
}

impl QueueBody {
    ghost use Rattle.block_list.specs.Lists.{KeepsOthers, parked_of, seated_of, without_all};
    ghost use Rattle.block_list.specs.Growth.{ComeIn, GoOut, Grows, with_numbers};
    ghost use Rattle.block_list.specs.Ends.{IsPreparedEnd, NamesBlock, IsNeverDamaged};
    ghost use Rattle.block_queue.specs.Queues.{IsQueue, IsSound, numbers_of, count_of, target_of, needed_of, added_of, need_of};
    ghost use Rattle.block_queue.specs.Changes.{IsHeldAs, gone_of};
    ghost use Rattle.block_queue.specs.Ends.{IsNeverUnfit, ReadsParked};

    /// A queue without items, which needs no block.
    pub fn new(alloc: Global) -> QueueBody
        ensures queue { result ≡ [] }
        ensures items { (m : map.Blocks) → IsQueue m result [] }
        ensures sound { (seats : SeatingView) → IsSound seats result }
    {
        QueueBody {
            alloc,
            marks: VecDeque::new(alloc),
            count: 0,
            numbers: Vec::new(alloc),
        }
    }

    /// How many items the queue has.
    pub fn count(&self) -> u64
        ensures count { result ≡ count_of self.now }
        ensures items { (m : map.Blocks) (blocks : List QueueBlock) → IsQueue m self.now blocks
            → result ≡ length (unread blocks) }
    {
        self.count
    }

    /// The number of a block, by its place from the front.
    pub fn block(&self, index: u64) -> Option<u64>
        ensures { result ≡ slice_get (numbers_of self.now) index }
    {
        match self.marks.get(index as usize) {
            Some(mark) => Some(mark.block),
            None => None,
        }
    }

    /// How many slices a push of an item needs in the home: one for a new block, where the item doesn't fit in the last
    /// one behind all that were put in it, and one for the last block where it fits there and that is in no slice.
    pub fn need<K: Shelf>(&self, home: &Home<K>, item: &[u8]) -> u64
        requires sound { IsSound home.now.seats self.now }
        requires fits { item_size item.now ≤ home.now.seats.size }
        ensures need { result ≡ need_of home.now.seats self.now (item_size item.now) }
        ensures parts { (number : ℕ) → result ≡ length (needed_of home.now.seats self.now (item_size item.now))
            + length (added_of home.now.seats self.now (item_size item.now) number) }
        ensures into { (m : map.Blocks) (old : List QueueBlock) (number : ℕ)
            → Holds m (K.told home.now.shelf) home.now.user home.now.seats.blocks → IsQueue m self.now old
            → pushed_into home.now.seats.size number old item.now
            ≡ unwrap_or (target_of home.now.seats self.now (item_size item.now)) number }
    {
        match target(&self.marks, home, HEAD + item.len()) {
            Some(block) if home.place(block).is_some() => 0,
            _ => 1,
        }
    }

    /// Puts an item behind all others: in the last block where it fits there, and else in a new one. A last block that
    /// is parked comes into a slice first. Exhausted comes exactly where the push needs a slice and none is unused, and
    /// then nothing has changed. At another `Err` the queue and the home's blocks and slices are as they were too. It
    /// is want of memory, or the last block was needed and the store didn't give it.
    pub fn push<K: Shelf>(&mut self, home: &mut Home<K>, item: &[u8]) -> Result<(), HomeEnd>
        requires sound { IsSound home.old.seats self.old }
        requires fits { item_size item.now ≤ home.old.seats.size }
        requires limit { count_of self.old < MOST_IN_QUEUE }

        ensures items { OnOk result ((m : map.Blocks) (old : List QueueBlock) (number : ℕ)
            → Holds m (K.told home.old.shelf) home.old.user home.old.seats.blocks
            → IsQueue m self.old old → IsNewNumber home.old.seats number
            → IsHeldAs m (K.told home.new.shelf) home.old.user home.new.seats self.new
            (pushed home.old.seats.size number old item.now) (numbers_of self.new)) }
        ensures count { OnOk result (count_of self.new ≡ count_of self.old + 1) }
        ensures numbers { OnOk result ((number : ℕ) → IsNewNumber home.old.seats number
            → numbers_of self.new ≡ numbers_of self.old
            ++ added_of home.old.seats self.old (item_size item.now) number) }
        ensures grows { OnOk result ((number : ℕ) → IsNewNumber home.old.seats number
            → Grows (with_numbers home.old.seats home.new.seats.numbers)
            (needed_of home.old.seats self.old (item_size item.now))
            (added_of home.old.seats self.old (item_size item.now) number) home.new.seats) }
        ensures sound { IsSound home.new.seats self.new }
        ensures others { KeepsOthers home.old.seats.blocks home.new.seats.blocks (numbers_of self.new) }
        ensures told { K.told home.new.shelf ≡ K.told home.old.shelf }
        ensures rest { home.new ≡ record home.old { seats = home.new.seats; shelf = home.new.shelf } }

        ensures exhausted { open_of home.old.seats < need_of home.old.seats self.old (item_size item.now)
            → result ≡ Err (HomeEnd.Exhausted (need_of home.old.seats self.old (item_size item.now))
            (used_of home.old.seats) (granted_of home.old.seats)) }
        ensures kept { open_of home.old.seats < need_of home.old.seats self.old (item_size item.now)
            → home.new ≡ home.old }
        ensures enough { need_of home.old.seats self.old (item_size item.now) ≤ open_of home.old.seats
            → IfErr result IsPreparedEnd }
        ensures seats_stay { OnErr result (home.new.seats ≡ with_numbers home.old.seats home.new.seats.numbers) }
        ensures queue_stays { OnErr result (self.new ≡ self.old) }
        ensures more { home.old.seats.numbers ≤ home.new.seats.numbers }
        ensures cause { Causes (K.faults home.old.shelf) (K.faults home.new.shelf) result }
        ensures names { NamesBlock home.old.seats (numbers_of self.old) result }
        ensures telling { IsNeverDamaged (K.told home.old.shelf) home.old.user home.old.seats result }
        ensures void { IsTrue (K.told home.old.shelf).void
            → needed_of home.old.seats self.old (item_size item.now) ≢ [] → IsErr result }
    {
        let target = target(&self.marks, home, HEAD + item.len());
        let need = self.need(home, item);
        if let Err(end) = home.prepare(need) {
            return Err(end);
        }
        if make_room(&mut self.marks, &mut self.numbers).is_err() {
            return Err(HomeEnd::NoMemory);
        }
        let Ok(piece) = item_piece(self.alloc, item) else {
            return Err(HomeEnd::NoMemory);
        };
        if let Err(end) = place_item(&mut self.marks, home, target, piece.items()) {
            return Err(end);
        }
        self.count += 1;
        Ok(())
    }

    /// Takes the first item out, and gives None exactly where there is none. A parked block is read through the store,
    /// and no block comes into a slice. A block whose last item was taken out is ended. At an `Err` nothing has
    /// changed. It is want of memory, or the first block is parked and the store didn't give it, or gave bytes that
    /// aren't items.
    pub fn pop<K: Shelf>(&mut self, home: &mut Home<K>) -> Result<Option<Blob>, HomeEnd>
        requires sound { IsSound home.old.seats self.old }

        ensures item { IfOk result (λ item. (m : map.Blocks) (old : List QueueBlock)
            → Holds m (K.told home.old.shelf) home.old.user home.old.seats.blocks
            → IsQueue m self.old old → item ≡ slice_get (unread old) 0) }
        ensures items { OnOk result ((m : map.Blocks) (old : List QueueBlock)
            → Holds m (K.told home.old.shelf) home.old.user home.old.seats.blocks
            → IsQueue m self.old old
            → IsHeldAs m (K.told home.new.shelf) home.old.user home.new.seats self.new (popped old)
            (numbers_of self.old)) }
        ensures some { IfOk result (λ item. IsSome item ↔ (self.old ≢ [])) }
        ensures none { self.old ≡ [] → result ≡ Ok None }
        ensures short { IfOk result (λ item. IfSome item (λ bytes. length bytes ≤ home.old.seats.size)) }
        ensures count { IfOk result (λ item. IsSome item → count_of self.new + 1 ≡ count_of self.old) }
        ensures numbers { OnOk result (numbers_of self.old ≡ gone_of self.old ++ numbers_of self.new) }
        ensures goes { OnOk result (GoOut (gone_of self.old) home.old.seats home.new.seats) }
        ensures gone { (m : map.Blocks) (old : List QueueBlock) → IsQueue m self.old old
            → gone_of self.old ≡ popped_out old }
        ensures blocks { OnOk result (home.new.seats.blocks ≡ without_all home.old.seats.blocks (gone_of self.old)) }
        ensures sound { IsSound home.new.seats self.new }
        ensures others { KeepsOthers home.old.seats.blocks home.new.seats.blocks (numbers_of self.old) }
        ensures kind { IsSameKind (K.told home.old.shelf) (K.told home.new.shelf) }
        ensures rest { home.new ≡ record home.old { seats = home.new.seats; shelf = home.new.shelf } }

        ensures told { OnErr result (K.told home.new.shelf ≡ K.told home.old.shelf) }
        ensures nothing { IfOk result (λ item. IsNone item → K.told home.new.shelf ≡ K.told home.old.shelf) }
        ensures seats_stay { OnErr result (home.new.seats ≡ home.old.seats) }
        ensures queue_stays { OnErr result (self.new ≡ self.old) }
        ensures ends { IfErr result IsPreparedEnd }
        ensures cause { Causes (K.faults home.old.shelf) (K.faults home.new.shelf) result }
        ensures names { NamesBlock home.old.seats (numbers_of self.old) result }
        ensures telling { IsNeverUnfit (K.told home.old.shelf) home.old.user home.old.seats self.old result }
        ensures void { IsTrue (K.told home.old.shelf).void → ReadsParked home.old.seats self.old → IsErr result }
    {
        match self.front(home) {
            Ok(Some(item)) => {
                take_first(&mut self.marks, home, item.items().len());
                self.count -= 1;
                Ok(Some(item))
            }
            Ok(None) => Ok(None),
            Err(end) => Err(end),
        }
    }

    /// The first item, which stays where it is, or None exactly where there is none. A parked block is read through the
    /// store, and no block moves.
    pub fn front<K: Shelf>(&mut self, home: &mut Home<K>) -> Result<Option<Blob>, HomeEnd>
        requires sound { IsSound home.old.seats self.old }

        ensures item { IfOk result (λ item. (m : map.Blocks) (old : List QueueBlock)
            → Holds m (K.told home.old.shelf) home.old.user home.old.seats.blocks
            → IsQueue m self.old old → item ≡ slice_get (unread old) 0) }
        ensures some { IfOk result (λ item. IsSome item ↔ (self.old ≢ [])) }
        ensures none { self.old ≡ [] → result ≡ Ok None }
        ensures short { IfOk result (λ item. IfSome item (λ bytes. length bytes ≤ home.old.seats.size)) }
        ensures told { K.told home.new.shelf ≡ K.told home.old.shelf }
        ensures rest { home.new ≡ record home.old { shelf = home.new.shelf } }
        ensures queue_stays { self.new ≡ self.old }
        ensures sound { IsSound home.new.seats self.new }

        ensures ends { IfErr result IsPreparedEnd }
        ensures cause { Causes (K.faults home.old.shelf) (K.faults home.new.shelf) result }
        ensures names { NamesBlock home.old.seats (numbers_of self.old) result }
        ensures telling { IsNeverUnfit (K.told home.old.shelf) home.old.user home.old.seats self.old result }
        ensures void { IsTrue (K.told home.old.shelf).void → ReadsParked home.old.seats self.old → IsErr result }
    {
        let Some(mark) = self.marks.front() else {
            return Ok(None);
        };
        match read_item(home, self.alloc, mark) {
            Ok(item) => Ok(Some(item)),
            Err(end) => Err(end),
        }
    }

    /// Ends the queue's blocks. It has no items then.
    pub fn cut_all<K: Shelf>(&mut self, home: &mut Home<K>)
        requires sound { IsSound home.old.seats self.old }
        ensures queue { self.new ≡ [] }
        ensures holds { (m : map.Blocks) → Holds m (K.told home.old.shelf) home.old.user home.old.seats.blocks
            → Holds (without_all m (numbers_of self.old)) (K.told home.new.shelf) home.old.user home.new.seats.blocks }
        ensures blocks { home.new.seats.blocks ≡ without_all home.old.seats.blocks (numbers_of self.old) }
        ensures goes { GoOut (numbers_of self.old) home.old.seats home.new.seats }
        ensures others { KeepsOthers home.old.seats.blocks home.new.seats.blocks (numbers_of self.old) }
        ensures follows { Follows (K.faults home.old.shelf) (K.faults home.new.shelf) }
        ensures kind { IsSameKind (K.told home.old.shelf) (K.told home.new.shelf) }
        ensures rest { home.new ≡ record home.old { seats = home.new.seats; shelf = home.new.shelf } }
    {
        list_numbers(&self.marks, &mut self.numbers);
        cut_blocks(home, &self.numbers);
        self.marks.clear();
        self.count = 0;
    }

    /// Parks the queue's blocks that are in slices, in ascending order of their numbers. It stops at the first that the
    /// store doesn't take: that one stays in its slice, and those before it stay parked.
    pub fn park<K: Shelf>(&mut self, home: &mut Home<K>) -> Result<(), StoreFault>
        requires sound { IsSound home.old.seats self.old }
        ensures holds { Carries home.old.user (K.told home.old.shelf) home.old.seats.blocks
            (K.told home.new.shelf) home.new.seats.blocks }
        ensures ok { OnOk result
            (GoOut (seated_of home.old.seats.purse (ascending (numbers_of self.old))) home.old.seats home.new.seats) }
        ensures err { OnErr result ((n : ℕ)
            × GoOut (take n (seated_of home.old.seats.purse (ascending (numbers_of self.old))))
            home.old.seats home.new.seats) }
        ensures lengths { KeepsLengths home.old.seats home.new.seats }
        ensures queue_stays { self.new ≡ self.old }
        ensures sound { IsSound home.new.seats self.new }
        ensures others { KeepsOthers home.old.seats.blocks home.new.seats.blocks (numbers_of self.old) }
        ensures cause { HasCause (K.faults home.old.shelf) (K.faults home.new.shelf) result }
        ensures kind { IsSameKind (K.told home.old.shelf) (K.told home.new.shelf) }
        ensures rest { home.new ≡ record home.old { seats = home.new.seats; shelf = home.new.shelf } }
    {
        list_numbers(&self.marks, &mut self.numbers);
        park_numbers(home, self.numbers.as_mut_slice())
    }

    /// How many of the queue's blocks are parked: so many slices a load of them needs.
    pub fn need_to_load<K: Shelf>(&mut self, home: &Home<K>) -> u64
        ensures need { result ≡ length (parked_of home.now.seats.purse (numbers_of self.old)) }
        ensures queue_stays { self.new ≡ self.old }
    {
        list_numbers(&self.marks, &mut self.numbers);
        count_parked(home, &self.numbers)
    }

    /// Brings the queue's parked blocks into slices, front to back. Exhausted comes exactly where they are more than
    /// the held slices that are unused, and then nothing has changed. It stops at the first that the store doesn't
    /// give: that one stays parked, and those before it stay in their slices.
    pub fn load<K: Shelf>(&mut self, home: &mut Home<K>) -> Result<(), HomeEnd>
        requires sound { IsSound home.old.seats self.old }
        ensures exhausted { open_of home.old.seats < length (parked_of home.old.seats.purse (numbers_of self.old))
            → result ≡ Err (HomeEnd.Exhausted (length (parked_of home.old.seats.purse (numbers_of self.old)))
            (used_of home.old.seats) (granted_of home.old.seats)) }
        ensures kept { open_of home.old.seats < length (parked_of home.old.seats.purse (numbers_of self.old))
            → home.new ≡ home.old }
        ensures starved { result ≡ Err HomeEnd.NoMemory → home.new ≡ home.old }
        ensures enough { length (parked_of home.old.seats.purse (numbers_of self.old)) ≤ open_of home.old.seats
            → IfErr result IsPreparedEnd }
        ensures ready { length (parked_of home.old.seats.purse (numbers_of self.old)) ≤ room_of home.old.seats
            → IfErr result IsStoreEnd }
        ensures holds { Carries home.old.user (K.told home.old.shelf) home.old.seats.blocks
            (K.told home.new.shelf) home.new.seats.blocks }
        ensures ok { OnOk result (ComeIn (parked_of home.old.seats.purse (numbers_of self.old))
            (with_numbers home.old.seats home.new.seats.numbers) home.new.seats) }
        ensures err { OnErr result ((n : ℕ)
            × ComeIn (take n (parked_of home.old.seats.purse (numbers_of self.old)))
            (with_numbers home.old.seats home.new.seats.numbers) home.new.seats) }
        ensures more { home.old.seats.numbers ≤ home.new.seats.numbers }
        ensures lengths { KeepsLengths home.old.seats home.new.seats }
        ensures queue_stays { self.new ≡ self.old }
        ensures sound { IsSound home.new.seats self.new }
        ensures others { KeepsOthers home.old.seats.blocks home.new.seats.blocks (numbers_of self.old) }
        ensures told { K.told home.new.shelf ≡ K.told home.old.shelf }
        ensures rest { home.new ≡ record home.old { seats = home.new.seats; shelf = home.new.shelf } }

        ensures cause { Causes (K.faults home.old.shelf) (K.faults home.new.shelf) result }
        ensures names { NamesBlock home.old.seats (numbers_of self.old) result }
        ensures telling { IsNeverDamaged (K.told home.old.shelf) home.old.user home.old.seats result }
        ensures void { IsTrue (K.told home.old.shelf).void
            → 0 < length (parked_of home.old.seats.purse (numbers_of self.old)) → IsErr result }
    {
        list_numbers(&self.marks, &mut self.numbers);
        load_blocks(home, &self.numbers)
    }
}
