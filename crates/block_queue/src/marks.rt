//! What a queue keeps of its blocks.

ghost use Rattle.std.specs.Prelude.{◌≡◌, ◌+◌, ◌<◌, ◌≤◌, vec_capacity, OnOk};
ghost use Rattle.std.specs.VecDeque.{deque_len, deque_capacity};
ghost use Rattle.block_queue.specs.Queues.{IsSound, numbers_of, target_of};

use block_home::Home;
use shelf_link::Shelf;
use std::alloc::AllocError;
use std::collections::VecDeque;

/// What a queue keeps of a block.
#[derive(Clone, Copy, PartialEq, Eq, Debug)]
pub(crate) struct Mark {
    /// The block's number in the home.
    pub block: u64,
    /// How many items were put in it, and how many of them were read.
    pub put: u32,
    pub read: u32,
    /// Where its first unread item begins, in bytes.
    pub at: u32,
}

/// Makes room for one block more, and for the numbers of all.
pub(crate) fn make_room(
    marks: &mut VecDeque<Mark>,
    numbers: &mut Vec<u64>,
) -> Result<(), AllocError>
    ensures marks { marks.new.items ≡ marks.old.items }
    ensures long { deque_len marks.new ≡ deque_len marks.old }
    ensures room { OnOk result (deque_len marks.new < deque_capacity marks.new) }
    ensures numbers { OnOk result (deque_len marks.new + 1 ≤ vec_capacity numbers.new) }
    ensures kept { vec_capacity numbers.old ≤ vec_capacity numbers.new }
{
    marks.reserve(1)?;
    numbers.clear();
    numbers.reserve(marks.len() + 1)
}

/// Writes the numbers of the blocks, front to back, over what `numbers` had. It has room for them.
pub(crate) fn list_numbers(marks: &VecDeque<Mark>, numbers: &mut Vec<u64>)
    requires { deque_len marks.now ≤ vec_capacity numbers.old }
    ensures numbers { numbers.new.items ≡ numbers_of marks.now.items }
    ensures room { vec_capacity numbers.new ≡ vec_capacity numbers.old }
{
    numbers.clear();
    for index in 0..marks.len() {
        numbers.push_reserved(marks[index].block);
    }
}

/// The last block, where so many bytes more fit in it behind all that were put in it. The home tells how many these
/// are, also of a parked block.
pub(crate) fn target<K: Shelf>(marks: &VecDeque<Mark>, home: &Home<K>, bytes: usize) -> Option<u64>
    requires { IsSound home.now.seats marks.now.items }
    ensures target { result ≡ target_of home.now.seats marks.now.items bytes }
    // What `size` says of each home.
    ensures limit { home.now.seats.size ≤ 65536 }
{
    let size = home.size() as usize;
    let Some(mark) = marks.back() else {
        return None;
    };
    let used = home.length(mark.block) as usize;
    if bytes <= size - used {
        Some(mark.block)
    } else {
        None
    }
}
