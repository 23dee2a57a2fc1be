//! How a queue's blocks change as items come and go.

ghost use Rattle.std.specs.Prelude.{◌≡◌, ◌≢◌, ℕ, List, [], ◌∷◌, ◌++◌, ◌+◌, ◌<◌, ◌≤◌, length, slice_get, Some, None, IsTrue, IsErr, IfErr, OnOk, OnErr};
ghost use Rattle.std.specs.VecDeque.{deque_len, deque_capacity};
ghost use Rattle.far_io.specs.Faults.{Follows};
ghost use Rattle.shelf_link.specs.Blocks as map;
ghost use Rattle.shelf_link.specs.Told.{IsSameKind};
ghost use Rattle.block_seats.specs.Purses.{place_of};
ghost use Rattle.block_seats.specs.Seatings.{IsNewNumber, IsAlike};
ghost use Rattle.block_home.specs.Homes.{room_of};
ghost use Rattle.block_home.specs.Stored.{Causes, IsStoreEnd};
ghost use Rattle.block_home.specs.Holding.{Holds};
ghost use Rattle.block_list.specs.Lists.{KeepsOthers, parked_of, without_all};
ghost use Rattle.block_list.specs.Growth.{ComeIn, GoOut, AddsBlocks, Grows};
ghost use Rattle.block_list.specs.Ends.{NamesBlock, IsNeverDamaged};
ghost use Rattle.queue_block.specs.Items.{head, Fits, item_bytes};
ghost use Rattle.queue_block.specs.Queues.{QueueBlock, pushed, popped, unread};
ghost use Rattle.block_queue.specs.Queues.{IsQueue, IsSound, numbers_of, count_of, target_of, needed_of, added_of, need_of};
ghost use Rattle.block_queue.specs.Changes.{IsHeldAs, gone_of};

use crate::items::write_behind;
use crate::marks::Mark;
use block_home::{Home, HomeEnd};
use queue_block::HEAD;
use shelf_link::Shelf;
use std::collections::VecDeque;

/// Puts an item, behind its count, where a push goes: in the last block, which comes into a slice first where it is
/// parked, or in a new one.
pub(crate) fn place_item<K: Shelf>(
    marks: &mut VecDeque<Mark>,
    home: &mut Home<K>,
    target: Option<u64>,
    piece: &[u8],
) -> Result<(), HomeEnd>
    requires sound { IsSound home.old.seats marks.old.items }
    requires target { target ≡ target_of home.old.seats marks.old.items (length piece.now) }
    requires some { head ≤ length piece.now }
    requires fits { length piece.now ≤ home.old.seats.size }
    requires prepared { need_of home.old.seats marks.old.items (length piece.now) ≤ room_of home.old.seats }
    requires space { deque_len marks.old < deque_capacity marks.old }

    ensures items { OnOk result ((m : map.Blocks) (old : List QueueBlock) (number : ℕ) (item : List ℕ)
        → Holds m (K.told home.old.shelf) home.old.user home.old.seats.blocks → IsQueue m marks.old.items old
        → IsNewNumber home.old.seats number → piece.now ≡ item_bytes item → Fits item
        → IsHeldAs m (K.told home.new.shelf) home.old.user home.new.seats marks.new.items
        (pushed home.old.seats.size number old item) (numbers_of marks.new.items)) }
    ensures count { OnOk result (count_of marks.new.items ≡ count_of marks.old.items + 1) }
    ensures numbers { OnOk result ((number : ℕ) → IsNewNumber home.old.seats number
        → numbers_of marks.new.items ≡ numbers_of marks.old.items
        ++ added_of home.old.seats marks.old.items (length piece.now) number) }
    ensures grows { OnOk result ((number : ℕ) → IsNewNumber home.old.seats number
        → Grows home.old.seats (needed_of home.old.seats marks.old.items (length piece.now))
        (added_of home.old.seats marks.old.items (length piece.now) number) home.new.seats) }
    ensures sound { IsSound home.new.seats marks.new.items }
    ensures others { KeepsOthers home.old.seats.blocks home.new.seats.blocks (numbers_of marks.new.items) }
    ensures told { K.told home.new.shelf ≡ K.told home.old.shelf }
    ensures alike { OnOk result (IsAlike home.old.seats home.new.seats) }
    ensures rest { home.new ≡ record home.old { seats = home.new.seats; shelf = home.new.shelf } }
    ensures long { deque_len marks.new ≤ deque_len marks.old + 1 }

    ensures seats_stay { OnErr result (home.new.seats ≡ home.old.seats) }
    ensures marks_stay { OnErr result (marks.new.items ≡ marks.old.items) }
    ensures ends { IfErr result IsStoreEnd }
    ensures cause { Causes (K.faults home.old.shelf) (K.faults home.new.shelf) result }
    ensures names { NamesBlock home.old.seats (numbers_of marks.old.items) result }
    ensures telling { IsNeverDamaged (K.told home.old.shelf) home.old.user home.old.seats result }
    ensures void { IsTrue (K.told home.old.shelf).void
        → needed_of home.old.seats marks.old.items (length piece.now) ≢ [] → IsErr result }
{
    match target {
        Some(block) => push_behind(marks, home, block, piece),
        None => {
            push_new(marks, home, piece);
            Ok(())
        }
    }
}

/// Puts an item, behind its count, in the last block, where it fits.
fn push_behind<K: Shelf>(
    marks: &mut VecDeque<Mark>,
    home: &mut Home<K>,
    block: u64,
    piece: &[u8],
) -> Result<(), HomeEnd>
    requires sound { IsSound home.old.seats marks.old.items }
    requires target { target_of home.old.seats marks.old.items (length piece.now) ≡ Some block }
    requires some { head ≤ length piece.now }
    requires prepared { length (parked_of home.old.seats.purse (block ∷ [])) ≤ room_of home.old.seats }

    ensures items { OnOk result ((m : map.Blocks) (old : List QueueBlock) (number : ℕ) (item : List ℕ)
        → Holds m (K.told home.old.shelf) home.old.user home.old.seats.blocks → IsQueue m marks.old.items old
        → piece.now ≡ item_bytes item → Fits item
        → IsHeldAs m (K.told home.new.shelf) home.old.user home.new.seats marks.new.items
        (pushed home.old.seats.size number old item) (numbers_of marks.new.items)) }
    ensures count { OnOk result (count_of marks.new.items ≡ count_of marks.old.items + 1) }
    ensures numbers { numbers_of marks.new.items ≡ numbers_of marks.old.items }
    ensures came { OnOk result (ComeIn (parked_of home.old.seats.purse (block ∷ [])) home.old.seats home.new.seats) }
    ensures same_blocks { AddsBlocks home.old.seats [] home.new.seats }
    ensures sound { IsSound home.new.seats marks.new.items }
    ensures others { KeepsOthers home.old.seats.blocks home.new.seats.blocks (numbers_of marks.old.items) }
    ensures told { K.told home.new.shelf ≡ K.told home.old.shelf }
    ensures rest { home.new ≡ record home.old { seats = home.new.seats; shelf = home.new.shelf } }
    ensures long { deque_len marks.new ≡ deque_len marks.old }

    ensures seats_stay { OnErr result (home.new.seats ≡ home.old.seats) }
    ensures marks_stay { OnErr result (marks.new.items ≡ marks.old.items) }
    ensures ends { IfErr result IsStoreEnd }
    ensures cause { Causes (K.faults home.old.shelf) (K.faults home.new.shelf) result }
    ensures names { NamesBlock home.old.seats (numbers_of marks.old.items) result }
    ensures telling { IsNeverDamaged (K.told home.old.shelf) home.old.user home.old.seats result }
    ensures void { IsTrue (K.told home.old.shelf).void → place_of home.old.seats.purse block ≡ None → IsErr result }
{
    if let Err(end) = write_behind(home, block, piece) {
        return Err(end);
    }
    let last = marks.len() - 1;
    marks[last].put += 1;
    Ok(())
}

/// Puts an item, behind its count, in a new block at the end.
fn push_new<K: Shelf>(marks: &mut VecDeque<Mark>, home: &mut Home<K>, piece: &[u8])
    requires sound { IsSound home.old.seats marks.old.items }
    requires target { target_of home.old.seats marks.old.items (length piece.now) ≡ None }
    requires some { head ≤ length piece.now }
    requires fits { length piece.now ≤ home.old.seats.size }
    requires prepared { 1 ≤ room_of home.old.seats }
    requires space { deque_len marks.old < deque_capacity marks.old }

    ensures items { (m : map.Blocks) (old : List QueueBlock) (number : ℕ) (item : List ℕ)
        → Holds m (K.told home.old.shelf) home.old.user home.old.seats.blocks → IsQueue m marks.old.items old
        → IsNewNumber home.old.seats number → piece.now ≡ item_bytes item → Fits item
        → IsHeldAs m (K.told home.new.shelf) home.old.user home.new.seats marks.new.items
        (pushed home.old.seats.size number old item) (numbers_of marks.new.items) }
    ensures count { count_of marks.new.items ≡ count_of marks.old.items + 1 }
    ensures numbers { (number : ℕ) → IsNewNumber home.old.seats number
        → numbers_of marks.new.items ≡ numbers_of marks.old.items ++ number ∷ [] }
    ensures came { (number : ℕ) → IsNewNumber home.old.seats number
        → ComeIn (number ∷ []) home.old.seats home.new.seats }
    ensures adds { (number : ℕ) → IsNewNumber home.old.seats number
        → AddsBlocks home.old.seats (number ∷ []) home.new.seats }
    ensures sound { IsSound home.new.seats marks.new.items }
    ensures others { KeepsOthers home.old.seats.blocks home.new.seats.blocks (numbers_of marks.new.items) }
    ensures alike { IsAlike home.old.seats home.new.seats }
    ensures rest { home.new ≡ record home.old { seats = home.new.seats } }
    ensures long { deque_len marks.new ≡ deque_len marks.old + 1 }
{
    let block = home.add(piece);
    marks.push_back_reserved(Mark {
        block,
        put: 1,
        read: 0,
        at: 0,
    });
}

/// Moves the mark of the first block behind its first unread item, which has `len` bytes. A block whose items are all
/// read is ended.
pub(crate) fn take_first<K: Shelf>(marks: &mut VecDeque<Mark>, home: &mut Home<K>, len: usize)
    requires sound { IsSound home.old.seats marks.old.items }
    requires some { 0 < deque_len marks.old }

    ensures items { (m : map.Blocks) (old : List QueueBlock) (item : List ℕ)
        → Holds m (K.told home.old.shelf) home.old.user home.old.seats.blocks → IsQueue m marks.old.items old
        → slice_get (unread old) 0 ≡ Some item → len ≡ length item
        → IsHeldAs m (K.told home.new.shelf) home.old.user home.new.seats marks.new.items (popped old)
        (numbers_of marks.old.items) }
    ensures count { count_of marks.new.items + 1 ≡ count_of marks.old.items }
    ensures numbers { numbers_of marks.old.items ≡ gone_of marks.old.items ++ numbers_of marks.new.items }
    ensures goes { GoOut (gone_of marks.old.items) home.old.seats home.new.seats }
    ensures blocks { home.new.seats.blocks ≡ without_all home.old.seats.blocks (gone_of marks.old.items) }
    ensures sound { IsSound home.new.seats marks.new.items }
    ensures others { KeepsOthers home.old.seats.blocks home.new.seats.blocks (numbers_of marks.old.items) }
    ensures follows { Follows (K.faults home.old.shelf) (K.faults home.new.shelf) }
    ensures kind { IsSameKind (K.told home.old.shelf) (K.told home.new.shelf) }
    ensures rest { home.new ≡ record home.old { seats = home.new.seats; shelf = home.new.shelf } }
    ensures long { deque_len marks.new ≤ deque_len marks.old }
{
    let mark = marks[0];
    if mark.read + 1 < mark.put {
        let end = (mark.at as usize + HEAD).saturating_add(len);
        marks[0] = Mark {
            read: mark.read + 1,
            at: end.min(home.length(mark.block) as usize) as u32,
            ..mark
        };
    } else {
        let _ = marks.pop_front();
        home.cut(mark.block);
    }
}
