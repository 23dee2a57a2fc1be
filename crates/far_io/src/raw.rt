//! Bytes in memory, which contracts see as a list.

use item_list::ItemList;

/// Bytes in memory. It is made from a vector, and gives it back, without taking memory.
pub type Raw = ItemList<u8>;
