//! The parts directly under a directory, and the names of one part.
ghost use Rattle.std.specs.Prelude.{◌≡◌, ◌≤◌, ◌<◌, ◌++◌, [], true, length, slice_index, IfErr, IfSome, OnOk, None};
ghost use Rattle.std.specs.Option.{option_copied, unwrap_or};
ghost use Rattle.std.specs.List.{cons_option};
ghost use Rattle.far_words.specs.Paths.{slash};
ghost use Rattle.lease_tree.specs.Edges.{text_of};
ghost use Rattle.lease_tree.specs.Lists.{IsPassed, IsSkipped};
ghost use Rattle.lease_tree.specs.Trees.{refused_under, base_of, begins_with, part_after, listed};

use super::walk::at_name;
use super::{HasKind, MOST_LISTED, Tree, TreeEnd};
use crate::order::{Edge, is_under, order};
use far_words::{Names, Part, Path};
use std::alloc::AllocError;
use std::cmp::Ordering;

impl<B: HasKind> Tree<B> {
    /// Puts the first parts directly under a directory that are greater than `after` by bytes into `out`, at most 1024 of
    /// them, and without a directory the names of one part. What `out` held goes, whatever is answered.
    ///
    /// Names under the listed ones are passed over in a few steps.
    pub fn list(&self, under: Option<&Path>, after: &[u8], out: &mut Names) -> Result<(), TreeEnd>
        ensures ok { OnOk result (refused_under B.kind_of self.now (option_copied under.entry) ≡ None) }
        ensures parts { OnOk result (out.new ≡ listed (base_of (option_copied under.entry)) after.now self.now) }
        ensures err { IfErr result (λ end.
            end ≡ unwrap_or (refused_under B.kind_of self.now (option_copied under.entry)) TreeEnd.NoMemory) }
    {
        out.clear();
        self.check_under(under)?;
        match self.fill(under, after, out) {
            Ok(()) => Ok(()),
            Err(_) => Err(TreeEnd::NoMemory),
        }
    }
}

impl<B> Tree<B> {
    /// Adds the parts to an empty list. That the directory is there isn't looked at.
    fn fill(&self, under: Option<&Path>, after: &[u8], out: &mut Names) -> Result<(), AllocError>
        requires { out.old ≡ [] }
        ensures { OnOk result (out.new ≡ listed (base_of (option_copied under.entry)) after.now self.now) }
    {
        let mut next = self.leases.first(Some(start(under, after)), None);
        while let Some(name) = next {
            if out.items().len() == MOST_LISTED || !is_in(under, name.bytes()) {
                return Ok(());
            }
            add_part(under, name, out)?;
            next = self.leases.first(Some(skipped(under, name)), None);
        }
        Ok(())
    }
}

/// Adds the part that a name is, if it is one.
fn add_part(under: Option<&Path>, name: &Path, out: &mut Names) -> Result<(), AllocError>
    requires { begins_with (base_of (option_copied under)) name.now ≡ true }
    ensures { OnOk result (out.new ≡ out.old ++ cons_option (part_after (base_of (option_copied under.entry)) name.now) []) }
{
    match part_in(under, name.bytes()) {
        Some(part) => out.push(part),
        None => Ok(()),
    }
}

/// The edge after which a list begins.
fn start<'a>(under: Option<&'a Path>, after: &'a [u8]) -> Edge<'a>
    ensures { text_of result ≡ base_of (option_copied under.entry) ++ after.entry.now }
{
    match under {
        Some(path) => Edge {
            front: path.bytes(),
            middle: b"/",
            back: after,
        },
        None => Edge {
            front: b"",
            middle: b"",
            back: after,
        },
    }
}

/// How many bytes stand before the part.
fn base_len(under: Option<&Path>) -> usize
    ensures { result ≡ length (base_of (option_copied under.entry)) }
{
    match under {
        Some(path) => path.bytes().len() + 1,
        None => 0,
    }
}

/// Whether a name begins as those do that are listed.
fn is_in(under: Option<&Path>, name: &[u8]) -> bool
    ensures { result ≡ begins_with (base_of (option_copied under.entry)) name.now }
{
    match under {
        Some(path) => is_under(path.bytes(), name),
        None => true,
    }
}

/// The part that is all that a name has after that beginning.
fn part_in(under: Option<&Path>, name: &[u8]) -> Option<Part>
    requires { begins_with (base_of (option_copied under)) name.now ≡ true }
    ensures { result ≡ part_after (base_of (option_copied under.entry)) name.now }
{
    Part::parse(&name[base_len(under)..])
}

/// Where a slash stands in a text, from a place on.
fn slash_from(text: &[u8], from: usize) -> Option<usize>
    ensures { IfSome result (λ at. (from ≤ at) × (at < length text.now) × (slice_index text.now at ≡ slash)) }
{
    let mut at = from;
    while at < text.len() {
        if text[at] == b'/' {
            return Some(at);
        }
        at += 1;
    }
    None
}

/// An edge up to which no part is listed after a name: the end of the names under its next part.
fn passed<'a>(under: Option<&Path>, name: &'a Path) -> Edge<'a>
    requires { begins_with (base_of (option_copied under)) name.now ≡ true }
    ensures { IsPassed (base_of (option_copied under.entry)) name.entry.now (text_of result) }
{
    let text = name.bytes();
    match slash_from(text, base_len(under)) {
        Some(at) => Edge {
            front: &text[..at],
            middle: b"/",
            back: b"\xff",
        },
        None => at_name(name),
    }
}

/// The same, and not before the name itself, so that the walk goes on.
fn skipped<'a>(under: Option<&Path>, name: &'a Path) -> Edge<'a>
    requires { begins_with (base_of (option_copied under)) name.now ≡ true }
    ensures { IsSkipped (base_of (option_copied under.entry)) name.entry.now (text_of result) }
{
    let edge = passed(under, name);
    match order(edge, name.bytes()) {
        Ordering::Less => at_name(name),
        _ => edge,
    }
}
