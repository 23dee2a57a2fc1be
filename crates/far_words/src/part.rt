//! Parts of paths.
ghost use Rattle.std.specs.Prelude.{◌≡◌, ℕ, ◌≤◌, ◌↔◌, length, take, nat_eq, Some, IsTrue, IsSome, IfSome};
ghost use Rattle.std.specs.Cmp;
ghost use Rattle.std.specs.Cmp.Lexicographic.{pointwise, nat_list_eq_equiv, nat_list_cmp_total, texts_ties, texts_po};
ghost use Rattle.std.proofs.Common.{rules};
ghost use Rattle.std.specs.List.{list_all};
ghost use Rattle.far_words.specs.Paths;
ghost use Rattle.far_words.specs.Paths.{bytes_cmp, is_name_byte};

use crate::text::{compare, write_text};
use std::cmp::Ordering;
use std::fmt;
use std::marker::Model;

/// One part of a path: 1 to 32 letters, digits, `_`, `-` or `.`. It holds its bytes in place, so it takes no memory.
#[derive(Drop)]
pub struct Part {
    bytes: [u8; 32],
    len: usize,
}

impl Model for Part {
    ghost use Rattle.std.specs.Prelude.{List, ℕ, take, ◌≤◌, IsTrue};
    ghost use Rattle.far_words.specs.Paths;

    ghost Value = { List ℕ };

    ghost view = { λ part. take part.len part.bytes };

    ghost invariant = { λ part. (part.len ≤ 32) × IsTrue (Paths.is_part (take part.len part.bytes)) };
}

fn is_letter(byte: u8) -> bool
    ensures { result ≡ is_name_byte byte }
{
    matches!(byte, b'a'..=b'z' | b'A'..=b'Z' | b'0'..=b'9' | b'_' | b'-' | b'.')
}

fn has_letters_only(text: &[u8]) -> bool
    ensures { result ≡ list_all is_name_byte text.now }
{
    text.iter().all(|byte| is_letter(*byte))
}

/// Whether a text is a part.
pub fn is_part(text: &[u8]) -> bool
    ensures { result ≡ Paths.is_part text.now }
{
    match text.len() {
        1..=32 => has_letters_only(text),
        _ => false,
    }
}

/// The text at the beginning of an array.
fn held(text: &[u8]) -> [u8; 32]
    requires { length text.now ≤ 32 }
    ensures { take (length text.now) result ≡ text.now }
{
    let mut bytes = [0; 32];
    bytes[..text.len()].copy_from_slice(text);
    bytes
}

impl Part {
    /// The part with this text, where it is one.
    pub fn parse(text: &[u8]) -> Option<Part>
        ensures grammar { IsSome result ↔ IsTrue (Paths.is_part text.now) }
        ensures value { IfSome result (λ part. part ≡ text.now) }
    {
        if !is_part(text) {
            return None;
        }
        Some(Part {
            bytes: held(text),
            len: text.len(),
        })
    }

    /// The text of the part.
    pub fn bytes(&self) -> &[u8]
        ensures value { result.now ≡ self.now }
        ensures grammar { IsTrue (Paths.is_part self.now) }
    {
        &self.bytes[..self.len]
    }
}

impl PartialEq for Part {
    ghost eq = { pointwise nat_eq };

    ghost laws = { Cmp.partial_equiv_from_equiv nat_list_eq_equiv };

    fn eq(&self, other: &Part) -> bool {
        self.bytes() == other.bytes()
    }
}

impl Eq for Part {
    ghost laws = { nat_list_eq_equiv };
}

impl PartialOrd for Part {
    ghost partial_cmp = { λ x y. Some (bytes_cmp x y) };

    ghost laws = { texts_po };

    fn partial_cmp(&self, other: &Part) -> Option<Ordering> {
        Some(self.cmp(other))
    }
}

/// By bytes.
impl Ord for Part {
    ghost cmp = { bytes_cmp };

    ghost total = { nat_list_cmp_total };

    ghost matches_partial_cmp = { Prim.search rules };

    ghost matches_eq = { texts_ties };

    fn cmp(&self, other: &Part) -> Ordering {
        compare(self.bytes(), other.bytes())
    }
}

impl fmt::Debug for Part {
    fn fmt<W: fmt::Write>(&self, f: &mut fmt::Formatter<W>) -> fmt::Result {
        write_text(self.bytes(), f)
    }
}
