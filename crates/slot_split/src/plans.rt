//! What plans tell: which records go to which block.

use crate::packing::Chain;
use crate::records::Records;
use item_list::ItemList;

/// The new blocks of a bucket, and of the next one.
#[derive(Debug, Drop)]
pub struct Plan {
    pub left: Chain,
    pub right: Chain,
}

/// What is left of a block: its place in the chain, and the records that are left there.
#[derive(Debug, Drop)]
pub struct Rest {
    pub at: u64,
    pub kept: Records,
}

/// What is left of the blocks that records move from, in the order of their chain.
pub type Rests = ItemList<Rest>;

/// What is left in a bucket from which records move, and the new blocks at the end of the next bucket's chain.
#[derive(Debug, Drop)]
pub struct MovePlan {
    pub left: Rests,
    pub right: Chain,
}
