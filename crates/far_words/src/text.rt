//! What parts and paths share: their order, and how they are shown.
ghost use Rattle.std.specs.Prelude.{◌≡◌};
ghost use Rattle.far_words.specs.Paths.{bytes_cmp};

use std::cmp::Ordering;
use std::fmt;

/// Compares by bytes. A text comes before each longer one that begins with it.
pub fn compare<'a>(left: &'a [u8], right: &'a [u8]) -> Ordering
    ensures { result ≡ bytes_cmp left.now right.now }
{
    Ord::cmp(&left, &right)
}

/// Writes a text as it stands.
pub fn write_text<W: fmt::Write>(text: &[u8], f: &mut fmt::Formatter<W>) -> fmt::Result {
    for byte in text {
        f.write_char(char::from(*byte))?;
    }
    Ok(())
}
