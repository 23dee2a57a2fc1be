//! Walks through a tree of names in the order of their bytes, each step of which takes a few steps of the search tree.
ghost use Rattle.std.specs.Prelude.{◌≡◌};
ghost use Rattle.std.specs.Option.{option_map, option_map_or, option_copied};
ghost use Rattle.lease_tree.specs.Edges.{text_of};
ghost use Rattle.lease_tree.specs.Leases.{without};
ghost use Rattle.lease_tree.specs.Trees.{last_under, next_after, next_ended};

use super::Tree;
use crate::order::{Edge, is_under};
use far_words::Path;

impl<B> Tree<B> {
    /// The next name by bytes after a name, and the first one where there is none to stand after.
    pub fn next_name(&self, after: Option<&Path>) -> Option<Path>
        ensures { result ≡ next_after (option_copied after.entry) self.now }
    {
        Some(self.leases.first(past(after), None)?.copy())
    }

    /// The next name by bytes whose lease has ended at a moment, where its end has something left to do.
    pub fn next_expired(&self, now: u64, after: Option<&Path>) -> Option<Path>
        ensures { result ≡ next_ended now (option_copied after.entry) self.now }
    {
        Some(self.leases.first(past(after), Some(now))?.copy())
    }

    /// Takes out the greatest name at or under a path by bytes.
    pub fn drop_next(&mut self, path: &Path) -> Option<(Path, B)>
        ensures taken { result ≡ option_map (λ e. (e.0, e.1.body)) (last_under path.now self.old) }
        ensures others { self.new ≡ option_map_or (λ e. without e.0 self.old) (last_under path.now self.old) self.old }
    {
        let last = self.last_name(path)?;
        self.leases.remove(&last);
        self.bodies.remove_entry(&last)
    }

    /// The greatest name at or under a path by bytes.
    fn last_name(&self, path: &Path) -> Option<Path>
        ensures { result ≡ option_map (λ e. e.0) (last_under path.now self.now) }
    {
        // The names under the path are those from its text and `/` on, up to its text and the byte after `/`.
        let edge = Edge {
            front: path.bytes(),
            middle: b"0",
            back: b"",
        };
        if let Some(last) = self.leases.last(edge) {
            if is_under(path.bytes(), last.bytes()) {
                return Some(last.copy());
            }
        }
        if self.bodies.contains_key(path) {
            return Some(path.copy());
        }
        None
    }
}

/// The edge after a name.
fn past<'a>(after: Option<&'a Path>) -> Option<Edge<'a>>
    ensures { option_map text_of result ≡ option_copied after.entry }
{
    match after {
        Some(path) => Some(at_name(path)),
        None => None,
    }
}

/// The edge at a name.
pub(super) fn at_name<'a>(path: &'a Path) -> Edge<'a>
    ensures { text_of result ≡ path.entry.now }
{
    Edge {
        front: path.bytes(),
        middle: b"",
        back: b"",
    }
}
