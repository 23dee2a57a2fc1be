//! What is found among leases, in a few steps each.
ghost use Rattle.std.specs.Prelude.{◌≡◌};
ghost use Rattle.std.specs.Option.{option_map, option_copied};
ghost use Rattle.std.specs.FinMap.{find};
ghost use Rattle.far_words.specs.Paths.{bytes_cmp};
ghost use Rattle.lease_tree.specs.Edges.{text_of};
ghost use Rattle.lease_tree.specs.Leases.{first_wanted, last_before};

use super::Leases;
use crate::lease::{Lease, is_reached};
use crate::order::{Edge, is_past, order};
use far_words::Path;
use std::cmp::Ordering;

impl Leases {
    /// The lease of a name.
    pub fn get(&self, path: &Path) -> Option<Lease>
        ensures { result ≡ find bytes_cmp path.now self.now }
    {
        let knot = self.knot()?;
        match path.cmp(&knot.path) {
            Ordering::Less => knot.left.get(path),
            Ordering::Greater => knot.right.get(path),
            Ordering::Equal => Some(knot.lease),
        }
    }

    /// The first name after a text whose lease is due at a moment. Without a text it is the first of all, and without a
    /// moment each lease counts.
    pub fn first(&self, after: Option<Edge<'_>>, now: Option<u64>) -> Option<&Path>
        ensures { option_copied result ≡ first_wanted (option_map text_of after.entry) now self.now }
    {
        let knot = self.knot()?;
        if !is_reached(knot.least, now) {
            return None;
        }
        if !is_past(after, knot.path.bytes()) {
            return knot.right.first(after, now);
        }
        if let Some(path) = knot.left.first(after, now) {
            return Some(path);
        }
        if knot.lease.is_due(now) {
            return Some(&knot.path);
        }
        knot.right.first(after, now)
    }

    /// The last name before a text.
    pub fn last(&self, edge: Edge<'_>) -> Option<&Path>
        ensures { option_copied result ≡ last_before (text_of edge.entry) self.now }
    {
        let knot = self.knot()?;
        match order(edge, knot.path.bytes()) {
            Ordering::Greater => match knot.right.last(edge) {
                Some(path) => Some(path),
                None => Some(&knot.path),
            },
            _ => knot.left.last(edge),
        }
    }
}
