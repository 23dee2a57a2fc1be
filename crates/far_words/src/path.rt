//! Paths of names.
ghost use Rattle.std.specs.Prelude.{◌≡◌, ℕ, ◌+◌, ◌<◌, ◌≤◌, ◌↔◌, ◌==◌, nat_eq, false, take, drop, length, slice_index, All, IfNone, count_by, Some, IsTrue, IsSome, OnSome, IfSome, List};
ghost use Rattle.std.specs.Cmp;
ghost use Rattle.std.specs.Cmp.Lexicographic.{pointwise, nat_list_eq_equiv, nat_list_cmp_total, texts_ties, texts_po};
ghost use Rattle.std.specs.List.{list_all};
ghost use Rattle.std.proofs.Common.{rules};
ghost use Rattle.far_words.specs.Paths;
ghost use Rattle.far_words.specs.Paths.{parts_of, parent_of, bytes_cmp, slash, IsJoined};

use crate::part::is_part;
use crate::text::{compare, write_text};
use std::cmp::Ordering;
use std::fmt;
use std::marker::Model;

/// A name: 1 to 8 parts that are joined by `/`. It holds its bytes in place, so it takes no memory.
#[derive(Drop)]
pub struct Path {
    bytes: [u8; 263],
    len: usize,
}

impl Model for Path {
    ghost use Rattle.std.specs.Prelude.{List, ℕ, take, ◌≤◌, IsTrue};
    ghost use Rattle.far_words.specs.Paths;

    ghost Value = { List ℕ };

    ghost view = { λ path. take path.len path.bytes };

    ghost invariant = { λ path. (path.len ≤ 263) × IsTrue (Paths.is_path (take path.len path.bytes)) };
}

fn count_slashes(text: &[u8]) -> usize
    ensures { result ≡ count_by (λ byte. byte == slash) text.now }
{
    text.iter().filter(|byte| **byte == b'/').count()
}

fn has_parts_only(text: &[u8]) -> bool
    ensures { result ≡ list_all Paths.is_part (parts_of text.now) }
{
    text.split(|byte| *byte == b'/').all(|part| is_part(part))
}

/// Whether a text is a path.
fn is_path(text: &[u8]) -> bool
    ensures { result ≡ Paths.is_path text.now }
{
    count_slashes(text) < 8 && has_parts_only(text)
}

/// The text at the beginning of an array.
fn held(text: &[u8]) -> [u8; 263]
    requires { length text.now ≤ 263 }
    ensures { take (length text.now) result ≡ text.now }
{
    let mut bytes = [0; 263];
    bytes[..text.len()].copy_from_slice(text);
    bytes
}

/// Where the last slash of a text is.
fn last_slash(text: &[u8]) -> Option<usize>
    ensures none { IfNone result (All (λ byte. (byte == slash) ≡ false) text.now) }
    ensures some { IfSome result (λ at. (at < length text.now) × (slice_index text.now at ≡ slash)) }
    ensures last { IfSome result (λ at. All (λ byte. (byte == slash) ≡ false) (drop (at + 1) text.now)) }
{
    let mut at = text.len();
    while at > 0 {
        at -= 1;
        if text[at] == b'/' {
            return Some(at);
        }
    }
    None
}

impl Path {
    /// The path with this text, where it is one.
    pub fn parse(text: &[u8]) -> Option<Path>
        ensures grammar { IsSome result ↔ IsTrue (Paths.is_path text.now) }
        // which is exactly where the text is 1 to 8 parts that are joined by slashes
        ensures joined { (parts : List (List ℕ)) → IsJoined text.now parts → IsSome result }
        ensures parted { OnSome result (IsJoined text.now (parts_of text.now)) }
        ensures value { IfSome result (λ path. path ≡ text.now) }
    {
        if text.len() > 263 {
            return None;
        }
        if !is_path(text) {
            return None;
        }
        Some(Path {
            bytes: held(text),
            len: text.len(),
        })
    }

    /// The text of the path.
    pub fn bytes(&self) -> &[u8]
        ensures value { result.now ≡ self.now }
        ensures grammar { IsTrue (Paths.is_path self.now) }
    {
        &self.bytes[..self.len]
    }

    /// The path that this one is directly under: all parts but the last. A path of one part has none.
    pub fn parent(&self) -> Option<Path>
        ensures { result ≡ parent_of self.now }
    {
        let text = self.bytes();
        match last_slash(text) {
            Some(at) => Some(Path {
                bytes: held(&text[..at]),
                len: at,
            }),
            None => None,
        }
    }

    /// The same path again. It takes no memory.
    pub fn copy(&self) -> Path
        ensures { result ≡ self.now }
    {
        Path {
            bytes: self.bytes,
            len: self.len,
        }
    }
}

impl PartialEq for Path {
    ghost eq = { pointwise nat_eq };

    ghost laws = { Cmp.partial_equiv_from_equiv nat_list_eq_equiv };

    fn eq(&self, other: &Path) -> bool {
        self.bytes() == other.bytes()
    }
}

impl Eq for Path {
    ghost laws = { nat_list_eq_equiv };
}

impl PartialOrd for Path {
    ghost partial_cmp = { λ x y. Some (bytes_cmp x y) };

    ghost laws = { texts_po };

    fn partial_cmp(&self, other: &Path) -> Option<Ordering> {
        Some(self.cmp(other))
    }
}

/// By bytes.
impl Ord for Path {
    ghost cmp = { bytes_cmp };

    ghost total = { nat_list_cmp_total };

    ghost matches_partial_cmp = { Prim.search rules };

    ghost matches_eq = { texts_ties };

    fn cmp(&self, other: &Path) -> Ordering {
        compare(self.bytes(), other.bytes())
    }
}

impl fmt::Debug for Path {
    fn fmt<W: fmt::Write>(&self, f: &mut fmt::Formatter<W>) -> fmt::Result {
        write_text(self.bytes(), f)
    }
}
