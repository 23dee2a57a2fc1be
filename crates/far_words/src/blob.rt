//! Bytes of any length.

use item_list::ItemList;

/// A list of bytes. It is made from a `Vec`, and gives it back, without taking memory.
pub type Blob = ItemList<u8>;
