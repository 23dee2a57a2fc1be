//! What a name stands for.
ghost use Rattle.std.specs.Prelude.{◌≡◌, ℕ, [], is_some, IfSome};
ghost use Rattle.shelf_link.specs.Blocks as map;
ghost use Rattle.far_history.specs.Answers.{is_served, empty_body};
ghost use Rattle.far_history.specs.Layouts.{kept_empty};
ghost use Rattle.block_seats.specs.Seatings.{SeatingView};
ghost use Rattle.block_file.specs.Files.{IsSound};
ghost use Rattle.tenant_world.specs.Contents.{IsSoundContent, blocks_of};
ghost use Rattle.tenant_world.specs.Outlines.{extent_of, content_extent};
ghost use Rattle.tenant_world.specs.Standing.{IsKeptAs};
ghost use Rattle.tenant_world.specs.Keeping.{KeepsStore};
ghost use Rattle.tenant_world.specs.Reading.{IsReadOf, IsReadIn, length_reply};

use crate::rows::reply_of;
use block_file::FileBody;
use block_home::Home;
use block_queue::QueueBody;
use far_asks::{Kind, Reply};
use far_words::Blob;
use shelf_link::Shelf;
use std::alloc::Global;

/// A name's content, in the user's home.
#[derive(Drop)]
pub enum Content {
    File(FileBody),
    Queue(QueueBody),
}

/// A name's lease and content.
#[derive(Drop)]
pub struct Named {
    pub lease: u64,
    pub content: Content,
}

/// A content of a kind, without bytes or items, which needs no block. No name of another kind can be made as yet.
pub fn empty_content(alloc: Global, kind: Kind) -> Option<Content>
    ensures served { is_served kind ≡ is_some result }
    ensures shows { IfSome result (λ content. content_extent content ≡ extent_of (empty_body kind)) }
    ensures blocks { IfSome result (λ content. blocks_of content ≡ []) }
    ensures sound { IfSome result (λ content. (seats : SeatingView) → IsSoundContent seats content) }
    ensures kept { IfSome result (λ content.
        (size : ℕ) (m : map.Blocks) → IsKeptAs size m content (kept_empty kind) (empty_body kind)) }
{
    match kind {
        Kind::File => Some(Content::File(FileBody::new(alloc))),
        Kind::Queue => Some(Content::Queue(QueueBody::new(alloc))),
        _ => None,
    }
}

/// How many bytes a file has. A queue is no file.
pub fn length_in(content: &Content) -> Reply
    ensures { result ≡ length_reply content.now }
{
    match content {
        Content::File(file) => Reply::Number(file.length()),
        Content::Queue(_) => Reply::WrongKind,
    }
}

/// The bytes of a file from `from` on, at most `len` of them, or why there are none.
fn read_file<K: Shelf>(
    alloc: Global,
    file: &mut FileBody,
    home: &mut Home<K>,
    from: u64,
    len: u32,
) -> Reply
    requires { IsSound home.old.seats file.old }
    ensures read { IsReadOf K.told K.faults home.old file.old from len result home.new }
    ensures store { KeepsStore K.told K.faults home.old home.new }
    ensures told { K.told home.new.shelf ≡ K.told home.old.shelf }
    ensures home { home.new ≡ record home.old { shelf = home.new.shelf } }
    ensures file { file.new ≡ file.old }
{
    let mut blob = Blob::new(alloc);
    match file.read(home, from, len, &mut blob) {
        Ok(()) => Reply::Bytes(blob),
        Err(end) => reply_of(end),
    }
}

/// The bytes of a content that is a file, from `from` on, at most `len` of them, or why there are none. A queue is no file.
/// No block moves.
pub fn read_content<K: Shelf>(
    alloc: Global,
    content: &mut Content,
    home: &mut Home<K>,
    from: u64,
    len: u32,
) -> Reply
    requires { IsSoundContent home.old.seats content.old }
    ensures read { IsReadIn K.told K.faults home.old content.old from len result home.new }
    ensures store { KeepsStore K.told K.faults home.old home.new }
    ensures told { K.told home.new.shelf ≡ K.told home.old.shelf }
    ensures home { home.new ≡ record home.old { shelf = home.new.shelf } }
    ensures content { content.new ≡ content.old }
{
    match content {
        Content::File(file) => read_file(alloc, file, home, from, len),
        Content::Queue(_) => Reply::WrongKind,
    }
}
