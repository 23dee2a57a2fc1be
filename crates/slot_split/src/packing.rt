//! Records packed first fit.

ghost use Rattle.std.specs.Prelude.{◌≡◌, ◌^◌, ◌<◌, length, position, OnOk};
ghost use Rattle.slot_split.specs.Packing.{fits_in, with_record, with_records};

use crate::records::{HEAD, Records};
use item_list::ItemList;
use std::alloc::{AllocError, Global};

/// Blocks in order, each the list of its records.
pub type Chain = ItemList<Records>;

// The place of the first block with room for so many bytes more.
fn first_with_room(blocks: &[Records], more: usize, size: u32) -> Option<usize>
    ensures { result ≡ position (fits_in size more) blocks.now }
{
    blocks.iter().position(|block| more <= size as usize
        && block.size() as usize <= size as usize - more)
}

/// Puts a record into the first block with room for it, else into a further block.
pub(crate) fn put_first_fit(
    blocks: &mut Chain,
    alloc: Global,
    key: &[u8],
    value: &[u8],
    size: u32,
) -> Result<(), AllocError>
    requires key_fits { length key.now < 2 ^ 16 }
    requires value_fits { length value.now < 2 ^ 16 }
    ensures { OnOk result (blocks.new ≡ with_record size blocks.old (key.now, value.now)) }
{
    let more = HEAD + key.len() + value.len();
    match first_with_room(blocks.items(), more, size) {
        Some(index) => blocks.items_mut()[index].push(key, value),
        None => {
            let mut block = Records::new(alloc);
            block.push(key, value)?;
            blocks.push(block)
        }
    }
}

/// Puts records in order into the first block with room for each.
pub(crate) fn put_all_first_fit(
    blocks: &mut Chain,
    alloc: Global,
    records: &Records,
    size: u32,
) -> Result<(), AllocError>
    ensures { OnOk result (blocks.new ≡ with_records size blocks.old records.now) }
{
    for index in 0..records.len() {
        put_first_fit(
            blocks,
            alloc,
            records.key(index),
            records.value(index),
            size,
        )?;
    }
    Ok(())
}
