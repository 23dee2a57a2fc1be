//! Items at the end of a queue, and at its front.
ghost use Rattle.std.specs.Prelude.{◌≡◌, ◌≤◌, ℕ, List};
ghost use Rattle.queue_block.specs.Items.{item_size};
ghost use Rattle.block_queue.specs.Queues.{IsSound};
ghost use Rattle.tenant_world.specs.Contents.{IsSoundContent};
ghost use Rattle.tenant_world.specs.Keeping.{IsReady, KeepsStore};
ghost use Rattle.tenant_world.specs.Pushing.{IsPushed};
ghost use Rattle.tenant_world.specs.Popping.{IsPopped, IsFrontOf, IsFrontIn, count_reply};

use crate::names::Content;
use crate::rows::{push_block_rows, reply_of};
use block_home::Home;
use block_queue::QueueBody;
use far_asks::Reply;
use far_words::{MOST_IN_QUEUE, Moves, Path};
use shelf_link::Shelf;
use std::alloc::Global;

/// Puts an item at the end of a queue, and notes the row of the block that came into a slice. The slices are counted
/// and the row is reserved before a block is changed; [`QueueBody::push`] counts and prepares a second time.
fn push_queue<K: Shelf>(
    alloc: Global,
    queue: &mut QueueBody,
    home: &mut Home<K>,
    moves: &mut Moves,
    path: &Path,
    item: &[u8],
) -> Reply
    requires sound { IsSound home.old.seats queue.old }
    requires fits { item_size item.now ≤ home.old.seats.size }
    requires ready { IsReady home.old moves.old }
    ensures store { KeepsStore K.told K.faults home.old home.new }
    ensures pushed { IsPushed K.told K.faults
        (record { content = Content.Queue queue.old; home = home.old; moves = moves.old })
        path.now item.now result
        (record { content = Content.Queue queue.new; home = home.new; moves = moves.new }) }
{
    home.clear_moves();
    if queue.count() >= MOST_IN_QUEUE {
        return Reply::Full {
            limit: MOST_IN_QUEUE,
        };
    }
    let need = queue.need(home, item);
    if let Err(end) = home.prepare(need) {
        return reply_of(end);
    }
    let Ok(mut rows) = Vec::with_capacity(alloc, need as usize) else {
        return Reply::NoMemory;
    };
    match queue.push(home, item) {
        Ok(()) => {
            push_block_rows(&mut rows, home.moves().placed(), path);
            moves.set_placed(rows);
            Reply::Done
        }
        Err(end) => reply_of(end),
    }
}

/// Puts an item at the end of a content that is a queue. A file is no queue.
pub fn push_content<K: Shelf>(
    alloc: Global,
    content: &mut Content,
    home: &mut Home<K>,
    moves: &mut Moves,
    path: &Path,
    item: &[u8],
) -> Reply
    requires sound { IsSoundContent home.old.seats content.old }
    requires fits { item_size item.now ≤ home.old.seats.size }
    requires ready { IsReady home.old moves.old }
    ensures store { KeepsStore K.told K.faults home.old home.new }
    ensures pushed { IsPushed K.told K.faults (record { content = content.old; home = home.old; moves = moves.old })
        path.now item.now result
        (record { content = content.new; home = home.new; moves = moves.new }) }
{
    match content {
        Content::Queue(queue) => push_queue(alloc, queue, home, moves, path, item),
        Content::File(_) => {
            home.clear_moves();
            Reply::WrongKind
        }
    }
}

/// Takes a queue's first item out, and notes the slice of a block whose items are all read.
fn pop_queue<K: Shelf>(queue: &mut QueueBody, home: &mut Home<K>, moves: &mut Moves) -> Reply
    requires sound { IsSound home.old.seats queue.old }
    requires ready { IsReady home.old moves.old }
    ensures store { KeepsStore K.told K.faults home.old home.new }
    ensures popped { (path : List ℕ) → IsPopped K.told K.faults
        (record { content = Content.Queue queue.old; home = home.old; moves = moves.old })
        path result
        (record { content = Content.Queue queue.new; home = home.new; moves = moves.new }) }
{
    home.clear_moves();
    match queue.pop(home) {
        Ok(Some(item)) => {
            moves.set_freed(home.moves().freed());
            Reply::Item(item)
        }
        Ok(None) => Reply::Nothing,
        Err(end) => reply_of(end),
    }
}

/// Takes the first item out of a content that is a queue. A file is no queue.
pub fn pop_content<K: Shelf>(content: &mut Content, home: &mut Home<K>, moves: &mut Moves) -> Reply
    requires sound { IsSoundContent home.old.seats content.old }
    requires ready { IsReady home.old moves.old }
    ensures store { KeepsStore K.told K.faults home.old home.new }
    ensures popped { (path : List ℕ) → IsPopped K.told K.faults
        (record { content = content.old; home = home.old; moves = moves.old })
        path result
        (record { content = content.new; home = home.new; moves = moves.new }) }
{
    match content {
        Content::Queue(queue) => pop_queue(queue, home, moves),
        Content::File(_) => {
            home.clear_moves();
            Reply::WrongKind
        }
    }
}

/// A queue's first item, which stays, or why there is none.
fn front_queue<K: Shelf>(queue: &mut QueueBody, home: &mut Home<K>) -> Reply
    requires { IsSound home.old.seats queue.old }
    ensures front { IsFrontOf K.told K.faults home.old queue.old result home.new }
    ensures store { KeepsStore K.told K.faults home.old home.new }
    ensures told { K.told home.new.shelf ≡ K.told home.old.shelf }
    ensures home { home.new ≡ record home.old { shelf = home.new.shelf } }
    ensures queue { queue.new ≡ queue.old }
{
    match queue.front(home) {
        Ok(Some(item)) => Reply::Item(item),
        Ok(None) => Reply::Nothing,
        Err(end) => reply_of(end),
    }
}

/// The first item of a content that is a queue, which stays, or why there is none. A file is no queue. No block moves.
pub fn front_content<K: Shelf>(content: &mut Content, home: &mut Home<K>) -> Reply
    requires { IsSoundContent home.old.seats content.old }
    ensures front { IsFrontIn K.told K.faults home.old content.old result home.new }
    ensures store { KeepsStore K.told K.faults home.old home.new }
    ensures told { K.told home.new.shelf ≡ K.told home.old.shelf }
    ensures home { home.new ≡ record home.old { shelf = home.new.shelf } }
    ensures content { content.new ≡ content.old }
{
    match content {
        Content::Queue(queue) => front_queue(queue, home),
        Content::File(_) => Reply::WrongKind,
    }
}

/// How many items a queue has. A file is no queue.
pub fn count_in(content: &Content) -> Reply
    ensures { result ≡ count_reply content.now }
{
    match content {
        Content::Queue(queue) => Reply::Number(queue.count()),
        Content::File(_) => Reply::WrongKind,
    }
}
