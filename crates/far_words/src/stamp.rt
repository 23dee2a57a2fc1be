//! What a parked block is known by, and what can be found in its place.

/// The stamp of a parked block: whose it is, which, how long, and the digest of its content.
///
/// The length is in bytes, and the digest is the SHA-256 of the content. Two stamps are equal exactly where all four are.
#[derive(Clone, Copy, PartialEq, Eq, Debug)]
pub struct Stamp {
    pub user: u32,
    pub block: u64,
    pub length: u32,
    pub digest: [u8; 32],
}

/// Why bytes are no image of a block. `docs/FORMATS.md` has the layout, and the order in which these are found.
#[derive(Clone, Copy, PartialEq, Eq, Debug)]
pub enum ImageFault {
    /// Fewer bytes than stand before the content.
    Short { have: u32 },
    /// The first four bytes aren't those of an image.
    Magic,
    /// The version isn't 1.
    Version { found: u8 },
    /// The length is 0, above 65,536, or not the count of bytes that follow.
    Length { said: u32, have: u32 },
    /// The content has another digest than the one that stands before it.
    Digest { kept: [u8; 32], found: [u8; 32] },
}

/// What stood in a store in place of a block that was parked there.
#[derive(Clone, Copy, PartialEq, Eq, Debug)]
pub enum Found {
    /// Nothing.
    Absent,
    /// Bytes that are no image.
    Broken { fault: ImageFault },
    /// More bytes than an image can have.
    Longer { len: u64 },
    /// An image with another stamp.
    Other { stamp: Stamp },
    /// The right image, whose content isn't laid out as a block of its kind; `place` is the first byte that doesn't fit.
    Unfit { place: u32 },
}

/// Bytes that aren't laid out as a block of their kind; `place` is the count of bytes before the first item or record that isn't
/// whole.
#[derive(Clone, Copy, PartialEq, Eq, Debug)]
pub struct Unfit {
    pub place: u32,
}
