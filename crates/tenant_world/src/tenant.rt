//! The tenant: what comes to it, and what each request's own function serves.
ghost use Rattle.std.specs.Prelude.{◌≡◌, ℕ, ◌*◌, ◌^◌, ◌<◌, ◌≤◌, ◌++◌, ◌∷◌, [], List, IfOk, IfSome, IsTrue, Some, None, if◌then◌else◌};
ghost use Rattle.far_io.specs.Faults.{Follows};
ghost use Rattle.shelf_link.specs.Told.{IsSameKind};
ghost use Rattle.slice_seq.specs.Purses as Purses;
ghost use Rattle.karma_rule.specs.Limits.{IsStore};
ghost use Rattle.far_words.specs.Moves.{AreInOrder};
ghost use Rattle.far_words.specs.Paths.{parent_of};
ghost use Rattle.far_words.specs.declared.kind.Kind.{Kind};
ghost use Rattle.far_asks.specs.declared.request.Request.TheVariants.{Make, Append, Read, Length, Park, Load};
ghost use Rattle.far_asks.specs.declared.request.Outcome.TheVariants.{Reply as Replied};
ghost use Rattle.far_history.specs.Entries.{Entry, Ask};
ghost use Rattle.far_history.specs.Histories.{State, fits};

use crate::appends::append_content;
use crate::names::{Named, empty_content, length_in, read_content};
use crate::parks::{load_content, park_content};
use block_home::Home;
use far_asks::{Kind, MOST_IN_REQUEST, Outcome, Reply, Request};
use far_words::{Moves, Path};
use karma_rule::Shape;
use shelf_link::Shelf;
use slice_seq::Slice;
use std::alloc::{AllocError, Global};
use std::collections::BTreeMap;
use std::marker::Model;

mod queues;

/// What comes to a tenant.
pub enum TenantAsk {
    /// A request of the user, at a moment.
    Ask { moment: u64, request: Request },
    /// A slice for the user to hold.
    Grant(Slice),
}

/// What a tenant answers. A slice that it doesn't take in is handed back as it came.
pub struct Told {
    pub outcome: Outcome,
    pub slice: Option<Slice>,
}

/// One user's names, leases and contents, the slices that keep the contents, and the store where blocks are parked.
///
/// Dropping it gives the memory of its slices back, and drops the store.
pub struct Tenant<K> {
    alloc: Global,
    moment: u64,
    names: BTreeMap<Path, Named>,
    home: Home<K>,
    moves: Moves,
}

impl<K> Model for Tenant<K> {
    ghost use Rattle.tenant_world.specs.Views.{TenantView};

    ghost Value = { TenantView K };

    ghost use Rattle.tenant_world.specs.Well.{IsWellTenant, tenant_view};

    ghost view = { tenant_view };

    ghost invariant = { IsWellTenant };
}

impl<K: Drop> Drop for Tenant<K> {
    /// Ends the home, which gives the memory of all slices back.
    fn drop(self) {
        // By hand, since a derived drop is proved anew in each crate above, field by field.
        let Tenant {
            alloc: _,
            moment: _,
            names: _,
            home: _,
            moves: _,
        } = self;
    }
}

/// A slice that isn't taken in.
fn handed_back(slice: Slice) -> Told
    ensures slice { result.slice ≡ Some slice }
    ensures outcome { result.outcome ≡ Outcome.Granted slice.id slice.number }
{
    Told {
        outcome: Outcome::Granted {
            slice: slice.id(),
            number: slice.number(),
        },
        slice: Some(slice),
    }
}

/// The number of a slice after a grant.
fn granted_number(slice: &Slice) -> u64
    ensures number { result ≡ Purses.granted_number slice.now.number }
    ensures limit { slice.now.number ≤ 2 ^ 63 }
{
    if slice.is_worn() {
        slice.number()
    } else {
        slice.number() + 1
    }
}

impl<K: Shelf + Drop> Tenant<K> {
    ghost use Rattle.tenant_world.specs.Views.{terms_of, held_by};
    ghost use Rattle.tenant_world.specs.Standing.{Stands};

    /// No name and no slice, over a store, with room for as many slices as a user may hold and for one image.
    pub fn new(alloc: Global, user: u32, shape: Shape, shelf: K) -> Result<Tenant<K>, AllocError>
        requires within { IsStore shape }
        ensures terms { IfOk result (λ tenant. tenant.terms ≡ terms_of user shape) }
        ensures shelf { IfOk result (λ tenant. tenant.home.shelf ≡ shelf) }
        ensures stands { IfOk result (λ tenant. Stands K.told K.faults tenant []) }
        ensures held { IfOk result (λ tenant. held_by tenant ≡ 0) }
    {
        let slices = u64::from(shape.users) * shape.share.fair;
        let home = Home::new(alloc, user, shape.slice, slices as u32, shelf)?;
        Ok(Tenant {
            alloc,
            moment: 0,
            names: BTreeMap::new(alloc),
            home,
            moves: Moves::new(alloc, slices as usize)?,
        })
    }
}

impl<K: Shelf> Tenant<K> {
    ghost use Rattle.tenant_world.specs.Views;
    ghost use Rattle.tenant_world.specs.Views.{tenant_entry, event_of, hands_back, held_after, held_by};
    ghost use Rattle.tenant_world.specs.Standing.{Sits, Stands};
    ghost use Rattle.tenant_world.specs.Telling.{NeverDamaged, ExcusesVoid};
    ghost use Rattle.tenant_world.specs.Serves.{IsTenantStep, IsStill, Keeps, Serves, coming};

    /// One event. The history that the tenant stands for grows by its entry, whatever the event is answered and whatever
    /// the store tells.
    ///
    /// So where the store tells its content or that it is void each answer is the one that plain names and contents give,
    /// or is excused, and after a refusal names, leases and contents are as before.
    pub fn apply(&mut self, ask: TenantAsk) -> Told
        ensures terms { self.new.terms ≡ self.old.terms }
        ensures stands { (h : List Entry) → Stands K.told K.faults self.old h
            → Stands K.told K.faults self.new (h ++ tenant_entry K.faults ask result self.old self.new ∷ []) }

        // What the store says of itself, and what that leaves of the answers.
        ensures kind { IsSameKind (K.told self.old.home.shelf) (K.told self.new.home.shelf) }
        ensures counts { Follows (K.faults self.old.home.shelf) (K.faults self.new.home.shelf) }
        ensures telling { NeverDamaged K.told self.old result.outcome }
        ensures void { ExcusesVoid K.told self.old (event_of ask) result.outcome }

        // A slice is handed back where it is of another size, or where every slice of the terms is held, and never
        // where it fits.
        ensures slice { result.slice ≡ Views.handed_back self.old ask }
        ensures back { IfSome result.slice (λ slice. result.outcome ≡ Outcome.Granted slice.id slice.number) }
        ensures fitting { (s : State) → Sits s self.old → IsTrue (fits self.old.terms s (event_of ask))
            → result.slice ≡ None }
        ensures held { held_by self.new ≡ held_after self.old ask }
    {
        self.moves.clear();
        match ask {
            TenantAsk::Ask { moment, request } => Told {
                outcome: Outcome::Reply(self.ask(moment, request)),
                slice: None,
            },
            TenantAsk::Grant(slice) => self.grant(slice),
        }
    }

    /// The moves of the last event, in the order of their slices' ids.
    pub fn moves(&self) -> &Moves
        ensures moves { result.now ≡ self.now.moves }
        ensures order { AreInOrder result.now }
    {
        &self.moves
    }

    /// How many slices are held.
    pub fn held(&self) -> u32
        ensures held { result ≡ held_by self.now }
        ensures granted { (s : State) → Sits s self.now → result ≡ Purses.granted s.purse }
    {
        self.home.granted()
    }

    /// Takes a slice in, or hands it back.
    fn grant(&mut self, slice: Slice) -> Told
        requires { IsStill self.old.moves }
        ensures step { IsTenantStep K.told K.faults self.old (coming slice) result.outcome self.new }
        ensures shelf { self.new.home.shelf ≡ self.old.home.shelf }
        ensures terms { self.new.terms ≡ self.old.terms }
        ensures slice { result.slice ≡ (if hands_back self.old slice then Some slice else None) }
        ensures outcome { (slice.number ≤ 2 ^ 63) × (result.outcome ≡ Outcome.Granted slice.id
            (if hands_back self.old slice then slice.number else Purses.granted_number slice.number)) }
        ensures fitting { (s : State) → Sits s self.old → IsTrue (fits self.old.terms s (coming slice))
            → result.slice ≡ None }
        ensures held { held_by self.new ≡ held_after self.old (TenantAsk.Grant slice) }
    {
        if slice.size() != self.home.size() {
            return handed_back(slice);
        }
        if self.home.is_full() {
            return handed_back(slice);
        }
        let id = slice.id();
        let number = granted_number(&slice);
        self.home.grant(slice);
        Told {
            outcome: Outcome::Granted { slice: id, number },
            slice: None,
        }
    }

    /// A request at a moment.
    fn ask(&mut self, moment: u64, request: Request) -> Reply
        requires { IsStill self.old.moves }
        ensures step { IsTenantStep K.told K.faults self.old (Ask moment request) (Replied result) self.new }
        ensures keeps { Keeps K.told K.faults self.old self.new }
        ensures telling { NeverDamaged K.told self.old (Replied result) }
        ensures void { ExcusesVoid K.told self.old (Ask moment request) (Replied result) }
    {
        self.moment = self.moment.max(moment);
        self.serve(request)
    }

    /// A request whose moment was taken.
    fn serve(&mut self, request: Request) -> Reply
        requires { IsStill self.old.moves }
        ensures { Serves K.told K.faults self.old request result self.new }
    {
        match request {
            Request::Make { path, kind, span } => self.make(path, kind, span),
            Request::Append { path, bytes } => self.append(&path, bytes.items()),
            Request::Read { path, from, len } => self.read(&path, from, len),
            Request::Length { path } => self.length(&path),
            Request::Push { path, item } => self.push(&path, item.items()),
            Request::Pop { path } => self.pop(&path),
            Request::Front { path } => self.front(&path),
            Request::Count { path } => self.count(&path),
            Request::Park { path } => self.park(&path),
            Request::Load { path } => self.load(&path),
        }
    }

    /// A name is made at the top: under another name there is no place for it, as long as no name is a directory.
    fn make(&mut self, path: Path, kind: Kind, span: u64) -> Reply
        requires { IsStill self.old.moves }
        ensures { Serves K.told K.faults self.old (Make path kind span) result self.new }
    {
        match path.parent() {
            Some(parent) => self.refuse_under(&parent),
            None => self.make_top(path, kind, span),
        }
    }

    /// Why a name can't be made under a parent. No name is a directory as yet.
    fn refuse_under(&self, parent: &Path) -> Reply
        requires { IsStill self.now.moves }
        ensures { (path : List ℕ) (kind : Kind) (span : ℕ) → parent_of path ≡ Some parent.now
            → Serves K.told K.faults self.now (Make path kind span) result self.now }
    {
        match self.names.get(parent) {
            Some(_) => Reply::WrongKind,
            None => Reply::Absent,
        }
    }

    /// A name at the top is made, with an empty content. After NoMemory nothing has changed.
    fn make_top(&mut self, path: Path, kind: Kind, span: u64) -> Reply
        requires still { IsStill self.old.moves }
        requires top { parent_of path ≡ None }
        ensures { Serves K.told K.faults self.old (Make path kind span) result self.new }
    {
        if self.names.contains_key(&path) {
            return Reply::Exists;
        }
        let Some(content) = empty_content(self.alloc, kind) else {
            return Reply::WrongKind;
        };
        let lease = self.moment.saturating_add(span);
        match self.names.insert(path, Named { lease, content }) {
            Ok(_) => Reply::Done,
            Err(_) => Reply::NoMemory,
        }
    }

    /// Bytes are put at the end of a file.
    fn append(&mut self, path: &Path, bytes: &[u8]) -> Reply
        requires { IsStill self.old.moves }
        ensures { Serves K.told K.faults self.old (Append path.now bytes.now) result self.new }
    {
        if bytes.len() as u64 > MOST_IN_REQUEST {
            return Reply::TooLong {
                limit: MOST_IN_REQUEST,
            };
        }
        let Some(named) = self.names.get_mut(path) else {
            return Reply::Absent;
        };
        append_content(
            self.alloc,
            &mut named.content,
            &mut self.home,
            &mut self.moves,
            path,
            bytes,
        )
    }

    /// A file's bytes from `from` on, at most `len` of them.
    fn read(&mut self, path: &Path, from: u64, len: u32) -> Reply
        requires { IsStill self.old.moves }
        ensures { Serves K.told K.faults self.old (Read path.now from len) result self.new }
    {
        if u64::from(len) > MOST_IN_REQUEST {
            return Reply::TooLong {
                limit: MOST_IN_REQUEST,
            };
        }
        let Some(named) = self.names.get_mut(path) else {
            return Reply::Absent;
        };
        read_content(self.alloc, &mut named.content, &mut self.home, from, len)
    }

    /// How many bytes a file has.
    fn length(&self, path: &Path) -> Reply
        requires { IsStill self.now.moves }
        ensures { Serves K.told K.faults self.now (Length path.now) result self.now }
    {
        let Some(named) = self.names.get(path) else {
            return Reply::Absent;
        };
        length_in(&named.content)
    }

    /// The blocks of a name go into the store, in the order of their indexes.
    fn park(&mut self, path: &Path) -> Reply
        requires { IsStill self.old.moves }
        ensures { Serves K.told K.faults self.old (Park path.now) result self.new }
    {
        let Some(named) = self.names.get_mut(path) else {
            return Reply::Absent;
        };
        park_content(&mut named.content, &mut self.home, &mut self.moves)
    }

    /// The blocks of a name that are in the store come back into slices, in the order of their indexes.
    fn load(&mut self, path: &Path) -> Reply
        requires { IsStill self.old.moves }
        ensures { Serves K.told K.faults self.old (Load path.now) result self.new }
    {
        let Some(named) = self.names.get_mut(path) else {
            return Reply::Absent;
        };
        load_content(
            self.alloc,
            &mut named.content,
            &mut self.home,
            &mut self.moves,
            path,
        )
    }
}
