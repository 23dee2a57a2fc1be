//! What a user asks for, and what it is told.
use far_words::{Blob, Found, Kind, Path, Stamp};

/// The most bytes that one request appends or reads.
pub const MOST_IN_REQUEST: u64 = 65_536;

/// What a user asks of its own names.
#[derive(PartialEq, Eq, Debug, Drop)]
pub enum Request {
    /// A new name, whose lease ends `span` after the moment.
    Make { path: Path, kind: Kind, span: u64 },
    /// Bytes at the end of a file. The reply is its new length.
    Append { path: Path, bytes: Blob },
    /// At most `len` bytes of a file, from `from` on.
    Read { path: Path, from: u64, len: u32 },
    /// The length of a file.
    Length { path: Path },
    /// An item at the end of a queue.
    Push { path: Path, item: Blob },
    /// The first item of a queue, taken out.
    Pop { path: Path },
    /// The first item of a queue, left where it is.
    Front { path: Path },
    /// The items of a queue.
    Count { path: Path },
    /// Every block of a name goes to the store, and frees its slice.
    Park { path: Path },
    /// Every block of a name comes into a slice.
    Load { path: Path },
}

/// The reply to a request.
#[derive(PartialEq, Eq, Debug, Drop)]
pub enum Reply {
    Done,
    Number(u64),
    Bytes(Blob),
    Item(Blob),
    /// There is no item.
    Nothing,
    /// A field of the request is longer than `limit`.
    TooLong { limit: u64 },
    /// The name, or the parent of a name that is to be made, isn't there.
    Absent,
    /// The name isn't of the kind that the request is for, or the parent isn't a directory.
    WrongKind,
    /// The name that is to be made is there.
    Exists,
    /// The content would be longer than `limit`.
    Full { limit: u64 },
    /// The request needs `need` slices, and the user has `granted`, of which `used` are used.
    Exhausted { need: u64, used: u64, granted: u64 },
    /// The store failed.
    StoreFault,
    /// What the store has in place of a parked block isn't the image that was put there, whose stamp was kept.
    Damaged { kept: Stamp, found: Found },
    /// There are `users` users, and this isn't one of them.
    AbsentUser { users: u32 },
    NoMemory,
}

/// What came of an event.
#[derive(PartialEq, Eq, Debug, Drop)]
pub enum Outcome {
    Reply(Reply),
    /// The slice is on its way, under this number.
    Slice { slice: u32, number: u64 },
    /// The slice was taken in, under this number.
    Granted { slice: u32, number: u64 },
    /// No slice is in the hand.
    HandEmpty,
    /// No slice is in the pool.
    PoolEmpty,
}
