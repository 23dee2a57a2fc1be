//! All that is to be said on a connection: the requests and replies of frames. No connection uses them yet.
//!
//! [`crate::Request`] and [`crate::Reply`] are those of them that a tenant serves by now. `docs/FORMATS.md` has the table of
//! frames.

pub use far_words::{Kind, Names, Place, Places};
use far_words::{Blob, Found, Part, Path, Stamp};

/// What is asked on a connection.
///
/// The slice requests name a block by the slice that it is in and the number under which that slice is used.
#[derive(PartialEq, Eq, Debug, Drop)]
pub enum Request {
    /// The first word of a connection: for which user it is.
    Hello {
        user: u32,
    },
    /// A new name, whose lease ends `span` after the moment.
    Make {
        path: Path,
        kind: Kind,
        span: u64,
    },
    /// A name and all under it go.
    DropTree {
        path: Path,
    },
    /// Parts directly under a directory that are greater than `after`.
    List {
        path: Path,
        after: Option<Part>,
    },
    /// Names of one part that are greater than `after`.
    Top {
        after: Option<Part>,
    },
    /// A lease that ends `span` after the moment.
    Renew {
        path: Path,
        span: u64,
    },
    /// The moment at which a lease ends.
    Lease {
        path: Path,
    },
    /// Bytes at the end of a file. The reply is its new length.
    Append {
        path: Path,
        bytes: Blob,
    },
    /// At most `len` bytes of a file, from `from` on.
    Read {
        path: Path,
        from: u64,
        len: u32,
    },
    /// The length of a file.
    Length {
        path: Path,
    },
    /// An item at the end of a queue.
    Push {
        path: Path,
        item: Blob,
    },
    /// The first item of a queue, taken out.
    Pop {
        path: Path,
    },
    /// The first item of a queue, left where it is.
    Front {
        path: Path,
    },
    /// The items of a queue or the keys of a table.
    Count {
        path: Path,
    },
    /// A value for a key. The reply is the old value, if there was one.
    Put {
        path: Path,
        key: Blob,
        value: Blob,
    },
    /// The value of a key.
    Get {
        path: Path,
        key: Blob,
    },
    /// The value of a key, taken out.
    Remove {
        path: Path,
        key: Blob,
    },
    /// The blocks of a name go to the store.
    Park {
        path: Path,
    },
    /// The blocks of a name come from the store.
    Load {
        path: Path,
    },
    /// Places of the blocks in slices, from index `from` on.
    Map {
        path: Path,
        from: u64,
    },
    /// At most `len` bytes of a file's block, from its byte `from` on.
    ReadSlice {
        slice: u32,
        number: u64,
        from: u32,
        len: u32,
    },
    /// As `Get`, of the table of which a block is named.
    GetSlice {
        slice: u32,
        number: u64,
        key: Blob,
    },
    /// As `Put`, of the table of which a block is named.
    PutSlice {
        slice: u32,
        number: u64,
        key: Blob,
        value: Blob,
    },
    /// The user wants so many slices from the next quantum on.
    Report {
        demand: u64,
    },
    /// What the user wanted and was given in the last quantum.
    Share,
    /// The last word of a connection.
    Bye,
}

/// What is told on a connection.
#[derive(PartialEq, Eq, Debug, Drop)]
pub enum Reply {
    Done,
    Number(u64),
    Bytes(Blob),
    Item(Blob),
    /// There is no item, or no value of this key.
    Nothing,
    Names(Names),
    Places(Places),
    Share {
        demand: u64,
        credits: u64,
        given: u64,
    },
    /// A field of the request is longer than `limit`.
    TooLong {
        limit: u64,
    },
    /// The name, or the parent of a name that is to be made, isn't there.
    Absent,
    /// The name isn't of the kind that the request is for, or the parent isn't a directory.
    WrongKind,
    /// The name that is to be made is there.
    Exists,
    /// The content would be longer than `limit`.
    Full {
        limit: u64,
    },
    /// The request needs `need` slices, and the user has `granted`, of which `used` are used.
    Exhausted {
        need: u64,
        used: u64,
        granted: u64,
    },
    /// A call of the store failed.
    StoreFault,
    /// A block was parked under the stamp `kept`, and the store gave something else.
    Damaged {
        kept: Stamp,
        found: Found,
    },
    /// The slice isn't used by this user under `asked`, but under `now`, if it is used.
    Stale {
        asked: u64,
        now: Option<u64>,
    },
    /// There are `users` users, and this isn't one of them.
    AbsentUser {
        users: u32,
    },
    /// The demand is above `limit`.
    TooMuch {
        limit: u64,
    },
    NoMemory,
}
