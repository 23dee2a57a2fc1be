//! Bytes at the end of a file.
ghost use Rattle.std.specs.Prelude.{◌≡◌, ◌≤◌, length};
ghost use Rattle.far_asks.specs.declared.request.TheConstants.{MOST_IN_REQUEST};
ghost use Rattle.block_file.specs.Files.{IsSound};
ghost use Rattle.tenant_world.specs.Contents.{IsSoundContent};
ghost use Rattle.tenant_world.specs.Keeping.{IsReady, KeepsStore};
ghost use Rattle.tenant_world.specs.Appending.{IsAppended};

use crate::names::Content;
use crate::rows::{push_rows, reply_of};
use block_file::FileBody;
use block_home::Home;
use far_asks::Reply;
use far_words::{MOST_IN_FILE, Moves, Path};
use shelf_link::Shelf;
use std::alloc::Global;

/// Puts bytes at the end of a file, and notes the rows of the blocks that came into slices. The home is prepared
/// once, and the rows are reserved before a block is changed.
fn append_file<K: Shelf>(
    alloc: Global,
    file: &mut FileBody,
    home: &mut Home<K>,
    moves: &mut Moves,
    path: &Path,
    bytes: &[u8],
) -> Reply
    requires sound { IsSound home.old.seats file.old }
    requires short { length bytes.now ≤ MOST_IN_REQUEST }
    requires ready { IsReady home.old moves.old }
    ensures store { KeepsStore K.told K.faults home.old home.new }
    ensures appended { IsAppended K.told K.faults
        (record { content = Content.File file.old; home = home.old; moves = moves.old })
        path.now bytes.now result
        (record { content = Content.File file.new; home = home.new; moves = moves.new }) }
{
    home.clear_moves();
    let old = file.length();
    let more = bytes.len() as u64;
    if old.saturating_add(more) > MOST_IN_FILE {
        return Reply::Full {
            limit: MOST_IN_FILE,
        };
    }
    let need = file.need(home, more);
    if let Err(end) = home.prepare(need) {
        return reply_of(end);
    }
    let Ok(mut rows) = Vec::with_capacity(alloc, need as usize) else {
        return Reply::NoMemory;
    };
    let size = u64::from(home.size());
    match file.append(home, bytes) {
        Ok(length) => {
            let count = length.div_ceil(size);
            push_rows(
                &mut rows,
                home.moves().placed(),
                path,
                file,
                old / size,
                count,
            );
            moves.set_placed(rows);
            Reply::Number(length)
        }
        Err(end) => reply_of(end),
    }
}

/// Puts bytes at the end of a content that is a file. A queue is no file.
pub fn append_content<K: Shelf>(
    alloc: Global,
    content: &mut Content,
    home: &mut Home<K>,
    moves: &mut Moves,
    path: &Path,
    bytes: &[u8],
) -> Reply
    requires sound { IsSoundContent home.old.seats content.old }
    requires short { length bytes.now ≤ MOST_IN_REQUEST }
    requires ready { IsReady home.old moves.old }
    ensures store { KeepsStore K.told K.faults home.old home.new }
    ensures appended { IsAppended K.told K.faults (record { content = content.old; home = home.old; moves = moves.old })
        path.now bytes.now result
        (record { content = content.new; home = home.new; moves = moves.new }) }
{
    match content {
        Content::File(file) => append_file(alloc, file, home, moves, path, bytes),
        Content::Queue(_) => {
            home.clear_moves();
            Reply::WrongKind
        }
    }
}
