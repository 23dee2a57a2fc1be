//! What stands in a frame, and pairs of such.

ghost use Rattle.std.specs.Prelude.{◌≡◌, List, [], ◌++◌};
ghost use Rattle.frame_fields.specs.Fields.{Field};
ghost use Rattle.frame_fields.specs.FrameLayouts.{Layout, Stop, both};
ghost use Rattle.frame_fields.specs.Reads.{Reads, ReadsAll};

use crate::ends::ReadEnd;
use std::alloc::Global;

/// A value that stands in a frame as fields that follow one another.
pub trait Framed: Drop + Sized {
    // Which fields these are.
    ghost layout: { Layout };

    // The fields of a value.
    ghost fields: { Self → List Field };

    /// Reads a value at the front of the bytes, and gives the bytes after it.
    ///
    /// It takes memory for blobs and rows alone, and only for what stands there: a blob is copied once all its bytes are
    /// known to be there, so it takes as many, and rows are added one by one as they are read. A list of rows takes more
    /// than their bytes: it may grow with room to spare, and a row takes a value's room, a part 40 bytes however short it
    /// is. What was read before a bad field is given back. No clause says any of this.
    fn read(alloc: Global, bytes: &[u8]) -> Result<(Self, &[u8]), ReadEnd>
        ensures { Reads (λ x. fields x.0) (λ x. x.1.now) layout bytes.now result };
}

/// No field.
impl Framed for () {
    ghost layout = { Stop };

    ghost fields = { λ _. [] };

    fn read(_alloc: Global, bytes: &[u8]) -> Result<((), &[u8]), ReadEnd> {
        Ok(((), bytes))
    }
}

/// One value, and then another.
impl<A: Framed, B: Framed> Framed for (A, B) {
    ghost layout = { both A.layout B.layout };

    ghost fields = { λ pair. A.fields pair.0 ++ B.fields pair.1 };

    fn read(alloc: Global, bytes: &[u8]) -> Result<((A, B), &[u8]), ReadEnd> {
        let (first, rest) = A::read(alloc, bytes)?;
        let (second, rest) = B::read(alloc, rest)?;
        Ok(((first, second), rest))
    }
}

/// Reads a value whose fields are all of the bytes.
pub fn read_all<T: Framed>(alloc: Global, bytes: &[u8]) -> Result<T, ReadEnd>
    ensures { ReadsAll T.fields T.layout bytes.now result }
{
    let (value, rest) = T::read(alloc, bytes)?;
    if !rest.is_empty() {
        return Err(ReadEnd::Bad { left: rest.len() });
    }
    Ok(value)
}
