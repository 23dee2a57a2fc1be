//! A user's row of a quantum, and what a user has a right to.

/// One user's line of a quantum. A user's number is the place of its row.
///
/// A user that is away keeps its row, and takes no part: its fair share, its floor and its credits are 0.
#[derive(Clone, Copy, Debug, PartialEq, Eq)]
pub struct Row {
    /// How many slices the user wants.
    pub demand: u64,
    /// What the user may still spend, one credit for each borrowed slice.
    pub credits: u64,
    /// How many slices the last quantum gave to the user.
    pub given: u64,
    /// The user's fair share, in slices.
    pub fair: u64,
    /// The part of the fair share that is never lent while the user wants it.
    pub floor: u64,
    /// Whether the user is of the roster, and not away.
    pub present: bool,
}

/// What a user has a right to, in slices: the fair share, and the floor, the part of it that is never lent
/// while the user wants it.
#[derive(Clone, Copy, Debug, PartialEq, Eq)]
pub struct Share {
    pub fair: u64,
    pub floor: u64,
}
