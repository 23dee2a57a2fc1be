//! Leases that change where they stand, which takes no memory.
ghost use Rattle.std.specs.Prelude.{◌≡◌};
ghost use Rattle.lease_tree.specs.Under;
ghost use Rattle.lease_tree.specs.Under.{is_along};
ghost use Rattle.lease_tree.specs.Leases as Ends;
ghost use Rattle.lease_tree.specs.Leases.{changed_where};
ghost use Rattle.lease_tree.specs.declared.lease.Change.TheVariants.{Raise};

use super::{Leases, tie};
use crate::lease::Change;
use crate::order::{is_under, order_pair};
use far_words::Path;
use std::cmp::Ordering;
use std::mem;

impl Leases {
    /// Changes the lease of a name, where it is there.
    pub fn change(&mut self, path: &Path, change: Change)
        ensures { self.new ≡ changed_where (Under.is_same path.now) (Ends.changed change) self.old }
    {
        *self = mem::replace(self, Leases::new()).changed(path, change);
    }

    /// Lets the leases of a name and of those that it is under end at a moment, or later where they did.
    pub fn raise_along(&mut self, path: &Path, end: u64)
        ensures { self.new ≡ changed_where (is_along path.now) (Ends.changed (Raise end)) self.old }
    {
        self.change(path, Change::Raise(end));
        let mut next = path.parent();
        while let Some(parent) = next {
            self.change(&parent, Change::Raise(end));
            next = parent.parent();
        }
    }

    /// Lets the leases under a name end at a moment, or later where they did.
    pub fn raise_under(&mut self, path: &Path, end: u64)
        ensures { self.new ≡ changed_where (Under.is_under path.now) (Ends.changed (Raise end)) self.old }
    {
        *self = mem::replace(self, Leases::new()).raised_under(path, end);
    }

    /// These leases where that of one name changes.
    fn changed(self, path: &Path, change: Change) -> Leases
        ensures { result ≡ changed_where (Under.is_same path.now) (Ends.changed change) self }
    {
        let Some(mut top) = self.untie() else {
            return Leases::new();
        };
        match path.cmp(&top.knot.path) {
            Ordering::Less => tie(top.knot, top.left.changed(path, change), top.right),
            Ordering::Greater => tie(top.knot, top.left, top.right.changed(path, change)),
            Ordering::Equal => {
                top.knot.lease = change.of(top.knot.lease);
                tie(top.knot, top.left, top.right)
            }
        }
    }

    /// These leases where those under a name end at a moment, or later where they did.
    fn raised_under(self, path: &Path, end: u64) -> Leases
        ensures { result ≡ changed_where (Under.is_under path.now) (Ends.changed (Raise end)) self }
    {
        let Some(mut top) = self.untie() else {
            return Leases::new();
        };
        let name = top.knot.path.bytes();
        if is_under(path.bytes(), name) {
            top.knot.lease = Change::Raise(end).of(top.knot.lease);
            let left = top.left.raised_under(path, end);
            return tie(top.knot, left, top.right.raised_under(path, end));
        }
        match order_pair(path.bytes(), b"/", name) {
            Ordering::Less => tie(top.knot, top.left.raised_under(path, end), top.right),
            _ => tie(top.knot, top.left, top.right.raised_under(path, end)),
        }
    }
}
