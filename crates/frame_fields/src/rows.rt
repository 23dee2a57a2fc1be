//! A count, and then so many rows.

ghost use Rattle.std.specs.Prelude.{◌≡◌, ◌^◌, ◌<◌, [], ◌∷◌, ◌++◌, length, IfOk, OnOk};
ghost use Rattle.frame_fields.specs.Fields.{Word, spelled};
ghost use Rattle.frame_fields.specs.FrameLayouts.{Fits, times};
ghost use Rattle.frame_fields.specs.Parts.{rows_of, fields_of_rows, place_fields};
ghost use Rattle.frame_fields.specs.Parts as parts;
ghost use Rattle.frame_fields.specs.Reads.{Reads};
ghost use Rattle.frame_fields.specs.Frames.{Extends, IsPut};

use crate::ends::ReadEnd;
use crate::framed::Framed;
use crate::names::put_part;
use crate::numbers::{put_long, put_word};
use far_words::{Blob, Part, Place};
use item_list::ItemList;
use std::alloc::{AllocError, Global};

/// Rows behind their count.
#[derive(Debug, Drop)]
pub struct Rows<T: Drop> {
    pub items: ItemList<T>,
}

/// What rows are made of.
pub trait Row: Framed {
    /// Adds the fields at the end.
    fn put(&self, out: &mut Blob) -> Result<(), AllocError>
        ensures put { OnOk result (out.new ≡ out.old ++ spelled (Self.fields self.now)) }
        ensures fits { OnOk result (Fits Self.layout (Self.fields self.now)) }
        ensures kept { Extends out.old out.new };
}

/// So many rows, and the bytes after them.
fn rows_at<T: Framed>(alloc: Global, count: u32, bytes: &[u8]) -> Result<(Rows<T>, &[u8]), ReadEnd>
    ensures reads { Reads (λ x. fields_of_rows T.fields x.0.items) (λ x. x.1.now) (times count T.layout)
        bytes.now result }
    ensures count { IfOk result (λ x. length x.0.items ≡ count) }
{
    let mut items = ItemList::new(alloc);
    let mut rest = bytes;
    for _ in 0..count {
        let (row, after) = T::read(alloc, rest)?;
        items.push(row)?;
        rest = after;
    }
    Ok((Rows { items }, rest))
}

impl<T: Framed> Framed for Rows<T> {
    ghost layout = { rows_of T.layout };

    ghost fields = { λ rows. Word (length rows.items) ∷ fields_of_rows T.fields rows.items };

    fn read(alloc: Global, bytes: &[u8]) -> Result<(Rows<T>, &[u8]), ReadEnd> {
        let (count, rest) = u32::read(alloc, bytes)?;
        rows_at(alloc, count, rest)
    }
}

/// Adds rows at the end, without their count.
fn put_rows<T: Row>(out: &mut Blob, rows: &[T]) -> Result<(), AllocError>
    ensures put { OnOk result (out.new ≡ out.old ++ spelled (fields_of_rows T.fields rows.now)) }
    ensures fit { OnOk result (Fits (times (length rows.now) T.layout) (fields_of_rows T.fields rows.now)) }
    ensures kept { Extends out.old out.new }
{
    for row in rows {
        row.put(out)?;
    }
    Ok(())
}

/// Adds rows behind their count at the end.
pub fn put_counted<T: Row>(out: &mut Blob, rows: &[T]) -> Result<(), AllocError>
    requires { length rows.now < 2 ^ 32 }
    ensures put { OnOk result
        (IsPut (rows_of T.layout) (Word (length rows.now) ∷ fields_of_rows T.fields rows.now) out.old out.new) }
    ensures kept { Extends out.old out.new }
{
    put_word(out, rows.len() as u32)?;
    put_rows(out, rows)
}

impl Row for Part {
    fn put(&self, out: &mut Blob) -> Result<(), AllocError> {
        put_part(out, self)
    }
}

impl Framed for Place {
    ghost layout = { parts.place };

    ghost fields = { place_fields };

    fn read(alloc: Global, bytes: &[u8]) -> Result<(Place, &[u8]), ReadEnd> {
        let ((slice, (number, (index, ()))), rest) = <(u32, (u64, (u64, ())))>::read(alloc, bytes)?;
        Ok((
            Place {
                slice,
                number,
                index,
            },
            rest,
        ))
    }
}

impl Row for Place {
    fn put(&self, out: &mut Blob) -> Result<(), AllocError> {
        put_word(out, self.slice)?;
        put_long(out, self.number)?;
        put_long(out, self.index)
    }
}
