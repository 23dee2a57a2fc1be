use crate::part::Part;
use item_list::ItemList;

/// Where a block of a name lies: its slice, the number under which the slice is used, and the block's index.
#[derive(Clone, Copy, PartialEq, Eq, Debug)]
pub struct Place {
    pub slice: u32,
    pub number: u64,
    pub index: u64,
}

/// Parts of paths, in the order in which they were found.
pub type Names = ItemList<Part>;

/// Places of blocks.
pub type Places = ItemList<Place>;
