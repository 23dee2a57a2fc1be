//! Shelves cross threads. Nothing calls what stands here: that it is proved says so.

use crate::{NullShelf, ShelfDir, ShelfMem, ShelfTwist, SureShelf};

fn sent<T: Send>(x: T) -> T {
    x
}

fn send_mem(x: ShelfMem) -> ShelfMem {
    sent(x)
}

fn send_sure(x: SureShelf) -> SureShelf {
    sent(x)
}

fn send_null(x: NullShelf) -> NullShelf {
    sent(x)
}

fn send_twist(x: ShelfTwist) -> ShelfTwist {
    sent(x)
}

fn send_dir<R: Drop + Send>(x: ShelfDir<R>) -> ShelfDir<R> {
    sent(x)
}
