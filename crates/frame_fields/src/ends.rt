//! Why fields could not be read.

ghost use Rattle.std.specs.Prelude.{◌≡◌};
ghost use Rattle.frame_fields.specs.declared.ends.ReadEnd.TheVariants.{NoMemory};

use std::alloc::AllocError;

/// Why fields could not be read.
#[derive(Clone, Copy, Debug, PartialEq, Eq)]
pub enum ReadEnd {
    /// The first field that is cut off or outside its grammar, or the first byte after the last field, begins the last
    /// `left` bytes.
    Bad { left: usize },
    NoMemory,
}

impl From<AllocError> for ReadEnd {
    ghost from_gives = { λ _ end. end ≡ NoMemory };

    fn from(_: AllocError) -> ReadEnd {
        ReadEnd::NoMemory
    }
}
