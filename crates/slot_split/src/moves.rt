//! Plans of packs and moves.

ghost use Rattle.std.specs.Prelude.{◌≡◌, ◌≤◌, ◌∷◌, [], length, filter, All, IfOk, OnOk};
ghost use Rattle.std.specs.List.{list_any};
ghost use Rattle.std.specs.List.Sorted.{IsPermutation};
ghost use Rattle.table_block.specs.Slots.{slot_of};
ghost use Rattle.table_block.specs.Records.{record_size, records_size};
ghost use Rattle.slot_split.specs.Packing.{with_records, packed};
ghost use Rattle.slot_split.specs.Plans.{is_between, moves, stays, all_records, move_plan_of, KeepsRecords, IsNewBlock};

use crate::packing::{Chain, put_all_first_fit, put_first_fit};
use crate::plans::{MovePlan, Plan, Rest};
use crate::records::Records;
use item_list::ItemList;
use std::alloc::{AllocError, Global};
use table_block::hash_slot;

/// The records of a chain, packed first fit: into one block where they have at most a block's bytes.
pub fn pack_plan(alloc: Global, all: &Records, size: u32) -> Result<Plan, AllocError>
    ensures plan { IfOk result (λ plan. plan ≡ record { left = packed size all.now; right = [] }) }
    ensures one { 1 ≤ length all.now → records_size all.now ≤ size → IfOk result (λ plan. plan.left ≡ all.now ∷ []) }
    ensures keeps { IfOk result (λ plan. IsPermutation all.now (all_records plan.left)) }
    ensures blocks { All (λ r. record_size r ≤ size) all.now → IfOk result (λ plan. All (IsNewBlock size) plan.left) }
{
    let mut left = ItemList::new(alloc);
    put_all_first_fit(&mut left, alloc, all, size)?;
    let right = ItemList::new(alloc);
    Ok(Plan { left, right })
}

// Whether a record with this key moves.
fn is_moving(key: &[u8], from: u16, to: u16) -> bool
    ensures { result ≡ is_between from to (slot_of key.now) }
{
    let slot = hash_slot(key);
    from <= slot && slot < to
}

// Whether one of a block's records moves.
fn has_moving(block: &Records, from: u16, to: u16) -> bool
    ensures { result ≡ list_any (moves from to) block.now }
{
    for index in 0..block.len() {
        if is_moving(block.key(index), from, to) {
            return true;
        }
    }
    false
}

// Whether a record of a chain moves.
fn any_moving(chain: &Chain, from: u16, to: u16) -> bool
    ensures { result ≡ list_any (list_any (moves from to)) chain.now }
{
    chain
        .items()
        .iter()
        .any(|block| has_moving(block, from, to))
}

// Puts a block's records that move first fit into other blocks, and gives those that are left.
fn split_block(
    alloc: Global,
    block: &Records,
    from: u16,
    to: u16,
    size: u32,
    right: &mut Chain,
) -> Result<Records, AllocError>
    ensures kept { IfOk result (λ kept. kept ≡ filter (stays from to) block.now) }
    ensures moved { OnOk result (right.new ≡ with_records size right.old (filter (moves from to) block.now)) }
{
    let mut kept = Records::new(alloc);
    for index in 0..block.len() {
        let key = block.key(index);
        let value = block.value(index);
        if is_moving(key, from, to) {
            put_first_fit(right, alloc, key, value, size)?;
        } else {
            kept.push(key, value)?;
        }
    }
    Ok(kept)
}

/// What moves from a bucket's chain into the next bucket, where the boundary between them goes down from slot `to` to
/// slot `from`: the records of these slots. `last` is the last block of the next bucket's chain, or no record where it has
/// no block. A block has at most `size` bytes.
pub fn move_plan(
    alloc: Global,
    left: &Chain,
    last: &Records,
    from: u16,
    to: u16,
    size: u32,
) -> Result<MovePlan, AllocError>
    ensures plan { IfOk result (λ plan. plan ≡ move_plan_of size from to left.now last.now) }
    ensures keeps { IfOk result (KeepsRecords left.now last.now) }
    ensures rests { All (λ block. records_size block ≤ size) left.now
        → IfOk result (λ plan. All (λ rest. records_size rest.kept ≤ size) plan.left) }
    ensures blocks { All (λ block. records_size block ≤ size) left.now → records_size last.now ≤ size
        → IfOk result (λ plan. All (IsNewBlock size) plan.right) }
{
    let mut rests = ItemList::new(alloc);
    let mut right = ItemList::new(alloc);
    if !any_moving(left, from, to) {
        return Ok(MovePlan { left: rests, right });
    }
    put_all_first_fit(&mut right, alloc, last, size)?;
    for (at, block) in left.items().iter().enumerate() {
        if has_moving(block, from, to) {
            let kept = split_block(alloc, block, from, to, size, &mut right)?;
            rests.push(Rest {
                at: at as u64,
                kept,
            })?;
        }
    }
    Ok(MovePlan { left: rests, right })
}
