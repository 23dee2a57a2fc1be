//! Leases by name, in a search tree.
//!
//! Each knot tells the least moment that is due among its own and those below it, so the next name whose lease has ended
//! is found in a few steps. The sides of a knot differ little in height: a name that is put or taken out turns the knots
//! above it, as in an AVL tree.
ghost use Rattle.std.specs.Prelude.{◌≡◌, [], ◌∷◌, ◌++◌, IfOk, IfSome, IfNone, None};
ghost use Rattle.std.specs.FinMap.{find, put};
ghost use Rattle.far_words.specs.Paths.{bytes_cmp};
ghost use Rattle.lease_tree.specs.Leases as Ends;
ghost use Rattle.lease_tree.specs.Leases.{least_due, entry_of, AreAbove, IsBetween};
ghost use Rattle.lease_tree.specs.Untied.{IsTop, IsUntied};

mod change;
mod search;

use crate::lease::Lease;
use far_words::Path;
use std::alloc::{AllocError, Global};
use std::cmp::Ordering;
use std::marker::Model;
use std::mem;

/// Leases in the order of their names.
#[cycle(leases)]
#[derive(Drop)]
pub struct Leases {
    top: Option<Box<Knot>>,
}

/// A name and its lease, between the names before it and those after it.
#[cycle(leases)]
#[derive(Drop)]
pub struct Knot {
    left: Leases,
    path: Path,
    lease: Lease,
    least: u64,
    height: u64,
    right: Leases,
}

/// A knot and what was tied to it.
#[derive(Drop)]
struct Untied {
    knot: Box<Knot>,
    left: Leases,
    right: Leases,
}

impl Model for Leases {
    ghost use Rattle.std.specs.Prelude.{List, ℕ, length};
    ghost use Rattle.lease_tree.specs.declared.lease.Lease.{Lease};

    ghost Value = { List (List ℕ × Lease) };

    ghost use Rattle.lease_tree.specs.Leases.{entries_of, IsWell};

    ghost view = { λ leases. entries_of leases.top };

    ghost invariant = { λ leases. IsWell leases.top };

    ghost size = { length };

    ghost use Rattle.std.proofs.Common.{arith, length-append};

    ghost size_decreases = { λ a h. Prim.grind (arith, length-append) };
}

/// A knot for one name, with nothing at its sides.
pub fn single(alloc: Global, path: Path, lease: Lease) -> Result<Box<Knot>, AllocError>
    ensures { IfOk result (λ knot. (entry_of knot.value ≡ (path, lease))) }
{
    let knot = Knot {
        left: Leases::new(),
        path,
        lease,
        least: 0,
        height: 0,
        right: Leases::new(),
    };
    Ok(Box::new(alloc, knot)?)
}

/// Ties two sides together.
fn tie(mut knot: Box<Knot>, left: Leases, right: Leases) -> Leases
    requires { IsBetween knot.value.path left right }
    ensures { result ≡ left ++ entry_of knot.value ∷ right }
{
    let tied: &mut Knot = &mut knot;
    tied.least = left.least().min(tied.lease.due()).min(right.least());
    tied.height = left.height().max(right.height()).saturating_add(1);
    tied.left = left;
    tied.right = right;
    Leases { top: Some(knot) }
}

/// Ties two sides together, of which one may have grown or shrunk by a knot. Where it is too high, its knots turn.
fn balance(knot: Box<Knot>, left: Leases, right: Leases) -> Leases
    requires { IsBetween knot.value.path left right }
    ensures { result ≡ left ++ entry_of knot.value ∷ right }
{
    let (low, high) = (left.height(), right.height());
    if low > high.saturating_add(1) {
        return lean_left(knot, left, right);
    }
    if high > low.saturating_add(1) {
        return lean_right(knot, left, right);
    }
    tie(knot, left, right)
}

/// The same where the left side is too high.
fn lean_left(knot: Box<Knot>, left: Leases, right: Leases) -> Leases
    requires { IsBetween knot.value.path left right }
    ensures { result ≡ left ++ entry_of knot.value ∷ right }
{
    let Some(outer) = left.untie() else {
        return tie(knot, Leases::new(), right);
    };
    if outer.left.height() >= outer.right.height() {
        return tie(outer.knot, outer.left, tie(knot, outer.right, right));
    }
    let Some(inner) = outer.right.untie() else {
        return tie(outer.knot, outer.left, tie(knot, Leases::new(), right));
    };
    let near = tie(outer.knot, outer.left, inner.left);
    tie(inner.knot, near, tie(knot, inner.right, right))
}

/// The same where the right side is too high.
fn lean_right(knot: Box<Knot>, left: Leases, right: Leases) -> Leases
    requires { IsBetween knot.value.path left right }
    ensures { result ≡ left ++ entry_of knot.value ∷ right }
{
    let Some(outer) = right.untie() else {
        return tie(knot, left, Leases::new());
    };
    if outer.right.height() >= outer.left.height() {
        return tie(outer.knot, tie(knot, left, outer.left), outer.right);
    }
    let Some(inner) = outer.left.untie() else {
        return tie(outer.knot, tie(knot, left, Leases::new()), outer.right);
    };
    let near = tie(outer.knot, inner.right, outer.right);
    tie(inner.knot, tie(knot, left, inner.left), near)
}

impl Leases {
    /// None.
    pub fn new() -> Leases
        ensures { result ≡ [] }
    {
        Leases { top: None }
    }

    /// Puts the lease of a new name in its place. It takes no memory.
    pub fn put(&mut self, knot: Box<Knot>)
        requires { find bytes_cmp knot.value.path self.old ≡ None }
        ensures { self.new ≡ put bytes_cmp knot.value.path knot.value.lease self.old }
    {
        *self = mem::replace(self, Leases::new()).with(knot);
    }

    /// Takes the lease of a name out.
    pub fn remove(&mut self, path: &Path)
        ensures { self.new ≡ Ends.without path.now self.old }
    {
        *self = mem::replace(self, Leases::new()).without(path);
    }

    fn height(&self) -> u64 {
        match &self.top {
            None => 0,
            Some(knot) => knot.height,
        }
    }

    /// The least moment that is due, and the last moment where none is.
    fn least(&self) -> u64
        ensures { result ≡ least_due self.now }
    {
        match &self.top {
            None => u64::MAX,
            Some(knot) => knot.least,
        }
    }

    /// The knot at the top.
    fn knot(&self) -> Option<&Knot>
        ensures some { IfSome result (λ knot. IsTop self.now knot.now) }
        ensures none { IfNone result (self.now ≡ []) }
    {
        match &self.top {
            None => None,
            Some(knot) => Some(knot),
        }
    }

    /// The knot at the top and its sides, apart.
    fn untie(self) -> Option<Untied>
        ensures some { IfSome result (IsUntied self) }
        ensures none { IfNone result (self ≡ []) }
    {
        let Some(mut knot) = self.top else {
            return None;
        };
        let left = mem::replace(&mut knot.left, Leases::new());
        let right = mem::replace(&mut knot.right, Leases::new());
        Some(Untied { knot, left, right })
    }

    /// These leases and one of a new name.
    fn with(self, knot: Box<Knot>) -> Leases
        requires { find bytes_cmp knot.value.path self ≡ None }
        ensures { result ≡ put bytes_cmp knot.value.path knot.value.lease self }
    {
        let Some(top) = self.untie() else {
            return tie(knot, Leases::new(), Leases::new());
        };
        match knot.path.cmp(&top.knot.path) {
            Ordering::Less => balance(top.knot, top.left.with(knot), top.right),
            _ => balance(top.knot, top.left, top.right.with(knot)),
        }
    }

    /// The first knot and the others.
    fn split_first(self) -> Option<(Box<Knot>, Leases)>
        ensures some { IfSome result (λ p. self ≡ entry_of p.0.value ∷ p.1) }
        ensures above { IfSome result (λ p. AreAbove p.0.value.path p.1) }
        ensures none { IfNone result (self ≡ []) }
    {
        let top = self.untie()?;
        match top.left.split_first() {
            None => Some((top.knot, top.right)),
            Some((first, rest)) => Some((first, balance(top.knot, rest, top.right))),
        }
    }

    /// These leases but for that of a name.
    fn without(self, path: &Path) -> Leases
        ensures { result ≡ Ends.without path.now self }
    {
        let Some(top) = self.untie() else {
            return Leases::new();
        };
        match path.cmp(&top.knot.path) {
            Ordering::Less => balance(top.knot, top.left.without(path), top.right),
            Ordering::Greater => balance(top.knot, top.left, top.right.without(path)),
            Ordering::Equal => join(top.left, top.right, path),
        }
    }
}

/// Two sides without the knot between them.
fn join(left: Leases, right: Leases, path: &Path) -> Leases
    requires { IsBetween path.now left right }
    ensures { result ≡ left ++ right }
{
    match right.split_first() {
        None => left,
        Some((knot, rest)) => balance(knot, left, rest),
    }
}
