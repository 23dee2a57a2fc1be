//! The tree of names.
ghost use Rattle.std.specs.Prelude.{◌≡◌, ◌↔◌, [], IsErr, IfErr, OnOk, OnErr, Some, None};
ghost use Rattle.std.specs.Borrow.{sem};
ghost use Rattle.std.specs.Option.{option_map, option_copied, option_copied_mut, unwrap_or};
ghost use Rattle.std.specs.FinMap.{find, put};
ghost use Rattle.far_words.specs.Paths.{bytes_cmp};
ghost use Rattle.far_words.specs.declared.kind.Kind.{Kind};
ghost use Rattle.lease_tree.specs.Under.{is_same};
ghost use Rattle.lease_tree.specs.Leases.{changed_where};
ghost use Rattle.lease_tree.specs.Lending.{lends_body};
ghost use Rattle.lease_tree.specs.Trees.{made, settled, refused_dir, refused_under, refused_new, renewed};

use crate::lease::{Change, Lease};
use crate::leases::{Leases, single};
use far_words::{Kind, Path};
use std::alloc::Global;
use std::collections::BTreeMap;
use std::marker::Model;

mod lists;
mod walk;

/// The most parts that one list has.
pub const MOST_LISTED: usize = 1024;

/// What a name's body is a body of.
pub trait HasKind {
    ghost kind_of: { Self → Kind };

    fn kind(&self) -> Kind
        ensures { result ≡ kind_of self.now };
}

/// Why a name isn't made, listed or renewed.
#[derive(Clone, Copy, PartialEq, Eq, Debug)]
pub enum TreeEnd {
    /// The name, or the parent of a name that is to be made, isn't there.
    Absent,
    /// It isn't a directory.
    WrongKind,
    /// The name that is to be made is there.
    Exists,
    NoMemory,
}

/// Names in the order of their bytes, each with a lease and a body.
#[derive(Drop)]
pub struct Tree<B> {
    alloc: Global,
    bodies: BTreeMap<Path, B>,
    leases: Leases,
}

impl<B> Model for Tree<B> {
    ghost use Rattle.lease_tree.specs.Names.{Names, joined, AreOfSame};

    ghost Value = { Names B };

    ghost view = { λ tree. joined tree.bodies.entries tree.leases };

    ghost invariant = { λ tree. AreOfSame tree.bodies.entries tree.leases };
}

impl<B> Tree<B> {
    /// No name.
    pub fn new(alloc: Global) -> Tree<B>
        ensures { result ≡ [] }
    {
        Tree {
            alloc,
            bodies: BTreeMap::new(alloc),
            leases: Leases::new(),
        }
    }

    /// What a name stands for, to be looked at.
    pub fn get(&self, path: &Path) -> Option<&B>
        ensures { option_copied result ≡ option_map (λ name. name.body) (find bytes_cmp path.now self.now) }
    {
        self.bodies.get(path)
    }

    /// What a name stands for, to be changed. The end of its lease has something to do from then on.
    pub fn find(&mut self, path: &Path) -> Option<&mut B>
        ensures* writes_back { sem 𝓛 (lends_body B.row self.entry path.now result) }
        ensures value { option_copied_mut result ≡ option_map (λ name. name.body) (find bytes_cmp path.now self.old) }
    {
        self.leases.change(path, Change::Wake);
        self.bodies.get_mut(path)
    }

    /// The moment of a name's lease.
    pub fn lease_of(&self, path: &Path) -> Option<u64>
        ensures { result ≡ option_map (λ name. name.end) (find bytes_cmp path.now self.now) }
    {
        match self.leases.get(path) {
            Some(lease) => Some(lease.end),
            None => None,
        }
    }

    /// The end of a name's lease has nothing left to do, until `find` lends its body again.
    pub fn settle(&mut self, path: &Path)
        ensures { self.new ≡ changed_where (is_same path.now) settled self.old }
    {
        self.leases.change(path, Change::Settle);
    }

    /// The leases of a name, of those under it and of those that it is under are raised to a moment. A later one stays.
    ///
    /// It is refused where the name isn't there, and with no other answer than `Absent`.
    pub fn renew(&mut self, path: &Path, end: u64) -> Result<(), TreeEnd>
        ensures ok { OnOk result (self.new ≡ renewed path.now end self.old) }
        ensures err { IfErr result (λ end. (end ≡ TreeEnd.Absent) × (self.new ≡ self.old)) }
        ensures refused { IsErr result ↔ (find bytes_cmp path.now self.old ≡ None) }
    {
        if !self.bodies.contains_key(path) {
            return Err(TreeEnd::Absent);
        }
        self.leases.raise_under(path, end);
        self.leases.raise_along(path, end);
        Ok(())
    }
}

impl<B: HasKind> Tree<B> {
    /// Why a path isn't a directory.
    fn check_dir(&self, path: &Path) -> Result<(), TreeEnd>
        ensures ok { OnOk result (refused_dir B.kind_of self.now path.now ≡ None) }
        ensures err { IfErr result (λ end. refused_dir B.kind_of self.now path.now ≡ Some end) }
    {
        let Some(body) = self.bodies.get(path) else {
            return Err(TreeEnd::Absent);
        };
        match body.kind() {
            Kind::Dir => Ok(()),
            _ => Err(TreeEnd::WrongKind),
        }
    }

    /// Why nothing stands directly under a path. Without a path it is the top, where there is no directory.
    fn check_under(&self, under: Option<&Path>) -> Result<(), TreeEnd>
        ensures ok { OnOk result (refused_under B.kind_of self.now (option_copied under.entry) ≡ None) }
        ensures err { IfErr result (λ end. refused_under B.kind_of self.now (option_copied under.entry) ≡ Some end) }
    {
        match under {
            Some(path) => self.check_dir(path),
            None => Ok(()),
        }
    }

    /// Why a path can't be made.
    fn check_new(&self, path: &Path) -> Result<(), TreeEnd>
        ensures ok { OnOk result (refused_new B.kind_of self.now path.now ≡ None) }
        ensures err { IfErr result (λ end. refused_new B.kind_of self.now path.now ≡ Some end) }
    {
        let parent = path.parent();
        self.check_under(parent.as_ref())?;
        if self.bodies.contains_key(path) {
            return Err(TreeEnd::Exists);
        }
        Ok(())
    }
}

impl<B: HasKind + Drop> Tree<B> {
    /// Makes a name with a body, whose lease ends at a moment. A refusal hands the body back, and then the names are as
    /// before.
    pub fn make(&mut self, path: Path, body: B, end: u64) -> Result<(), (TreeEnd, B)>
        ensures ok { OnOk result (refused_new B.kind_of self.old path ≡ None) }
        ensures made { OnOk result (self.new ≡ put bytes_cmp path (made end body) self.old) }
        ensures cause { IfErr result (λ e. e.0 ≡ unwrap_or (refused_new B.kind_of self.old path) TreeEnd.NoMemory) }
        ensures body { IfErr result (λ e. e.1 ≡ body) }
        ensures err { OnErr result (self.new ≡ self.old) }
    {
        if let Err(end) = self.check_new(&path) {
            return Err((end, body));
        }
        let lease = Lease {
            end,
            settled: false,
        };
        let Ok(knot) = single(self.alloc, path.copy(), lease) else {
            return Err((TreeEnd::NoMemory, body));
        };
        match self.bodies.insert(path, body) {
            Ok(old) => {
                drop(old);
                self.leases.put(knot);
                Ok(())
            }
            Err(refused) => {
                let (_, body) = refused.value;
                Err((TreeEnd::NoMemory, body))
            }
        }
    }
}
