//! The core: what comes to it, and what it does.
ghost use Rattle.std.specs.Prelude.{◌≡◌, ℕ, ◌<◌, ◌++◌, ◌∷◌, [], List, length, IfOk};
ghost use Rattle.shelf_link.specs.Told.{is_sure};
ghost use Rattle.slice_seq.specs.Slice.{SliceView};
ghost use Rattle.karma_rule.specs.Limits.{IsStore};
ghost use Rattle.far_words.specs.Moves.{AreInOrder, no_moves};
ghost use Rattle.far_history.specs.Entries.{Ask};

use crate::slices::Slices;
use far_asks::{Outcome, Reply, Request};
use far_words::Moves;
use karma_rule::Shape;
use shelf_link::Shelf;
use std::alloc::{AllocError, Global};
use std::marker::Model;
use tenant_world::{Tenant, TenantAsk, Told};

/// What comes to a core.
#[derive(Debug, Drop)]
pub enum CoreEvent {
    /// A request of a user.
    Ask { user: u32, request: Request },
    /// The pool's lowest slice comes into the hand.
    Draw,
    /// The slice that came last into the hand goes to a user.
    Grant { user: u32 },
}

/// What a run of commands answers: the number of its status, and the tenants of its core in the order of their users, if
/// it had a core.
#[derive(Drop)]
pub struct Ran<K> {
    pub status: u8,
    pub tenants: Vec<Tenant<K>>,
}

/// The free slices, the slices in hand, and the tenant of the one user that there is, over the user's store.
///
/// All room for slices is reserved when the core is made. So an event that isn't a request takes no memory, and a few
/// steps.
#[derive(Drop)]
pub struct Core<K> {
    shape: Shape,
    slices: Slices,
    tenant: Tenant<K>,
    /// The room in which the tenants are handed back.
    ended: Vec<Tenant<K>>,
    /// Whether the last event was the tenant's.
    is_own: bool,
    /// The moves of an event that isn't a tenant's.
    no_moves: Moves,
}

impl<K> Model for Core<K> {
    ghost use Rattle.far_core.specs.Cores.{CoreView};
    ghost use Rattle.far_core.specs.Inside.{IsWellCore, core_view};

    ghost Value = { CoreView K };

    ghost view = { core_view };

    ghost invariant = { IsWellCore };
}

impl<K: Shelf + Drop> Core<K> {
    ghost use Rattle.far_core.specs.Cores.{StandsForRun};

    /// A core whose slices are all in the pool, under number 0, and whose user has no name. It takes the users' stores, in
    /// the order of the users.
    pub fn new(alloc: Global, shape: Shape, mut shelves: Vec<K>) -> Result<Core<K>, AllocError>
        requires within { IsStore shape }
        requires one_user { shape.users ≡ 1 }
        requires shelves { length shelves.items ≡ shape.users }
        ensures shape { IfOk result (λ core. core.shape ≡ shape) }
        ensures stands { IfOk result (λ core. StandsForRun K.told K.faults shelves.items core []) }
    {
        let Some(shelf) = shelves.pop() else {
            unreachable!();
        };
        let no_moves = Moves::new(alloc, 0)?;
        let tenant = Tenant::new(alloc, 0, shape, shelf)?;
        let ended = Vec::with_capacity(alloc, 1)?;
        let count = u64::from(shape.users) * shape.share.fair;
        let slices = Slices::new(alloc, count as u32, shape.slice)?;
        Ok(Core {
            shape,
            slices,
            tenant,
            ended,
            is_own: false,
            no_moves,
        })
    }
}

impl<K: Shelf> Core<K> {
    ghost use Rattle.far_core.specs.Runs.{CoreEntry, IsLegalFor};
    ghost use Rattle.far_core.specs.Cores.{Gives, GrowsBy, GrowsTenant, HaveHistories, KeepsStore, StandsForRun, core_entry, draw_of};

    /// One event. The run that the core stands for grows by its entry, whatever the event is answered and whatever the
    /// stores tell.
    pub fn step(&mut self, event: CoreEvent) -> Outcome
        ensures shape { self.new.shape ≡ self.old.shape }
        ensures stands { GrowsBy K.told K.faults self.old
            (core_entry K.faults event result self.old self.new ∷ []) self.new }

        // Each user's own events, taken alone, are a sound history in order, and a legal one where the user's store tells
        // its content or that it is void.
        ensures each_user { (shelves : List _) (run : List CoreEntry)
            → StandsForRun K.told K.faults shelves self.old run → (user : ℕ) → user < self.old.shape.users
            → IsLegalFor (is_sure (K.told self.new.tenant.home.shelf)) self.old.shape
            (run ++ core_entry K.faults event result self.old self.new ∷ []) user }

        ensures store { KeepsStore K.told K.faults self.old self.new }
    {
        self.is_own = false;
        self.answer(event)
    }

    /// The moves of the last event, in the order of their slices' ids. An event that isn't a tenant's has none.
    pub fn moves(&self) -> &Moves
        ensures moves { result.now ≡ self.now.moves }
        ensures order { AreInOrder result.now }
    {
        if self.is_own {
            self.tenant.moves()
        } else {
            &self.no_moves
        }
    }

    /// How many slices are in hand.
    pub fn hand(&self) -> u32
        ensures { result ≡ length self.now.hand }
    {
        self.slices.hand.len() as u32
    }

    /// Ends the core, and gives its tenants in the order of their users. The slices of pool and hand are ended, each by
    /// [`Slice::free`](slice_seq::Slice::free); those that a tenant holds stay with it, and so does its store. It takes no
    /// memory.
    pub fn finish(self) -> Vec<Tenant<K>>
        ensures tenants { result.items ≡ self.tenant ∷ [] }

        // Whatever run the core stands for, the tenants have the histories of its users.
        ensures have { (shelves : List _) (run : List CoreEntry) → StandsForRun K.told K.faults shelves self run
            → HaveHistories K.told K.faults self.shape run 0 shelves result.items }
    {
        let Core {
            shape: _,
            slices: _,
            tenant,
            mut ended,
            is_own: _,
            no_moves: _,
        } = self;
        ended.push_reserved(tenant);
        ended
    }

    /// One event, after the moves of the one before were forgotten.
    fn answer(&mut self, event: CoreEvent) -> Outcome
        requires { self.old.moves ≡ no_moves 0 }
        ensures shape { self.new.shape ≡ self.old.shape }
        ensures stands { GrowsBy K.told K.faults self.old
            (core_entry K.faults event result self.old self.new ∷ []) self.new }
        ensures store { KeepsStore K.told K.faults self.old self.new }
    {
        match event {
            CoreEvent::Ask { user, request } => {
                if user >= self.shape.users {
                    return self.absent_user();
                }
                self.ask(request)
            }
            CoreEvent::Draw => self.draw(),
            CoreEvent::Grant { user } => {
                if user >= self.shape.users {
                    return self.absent_user();
                }
                self.grant()
            }
        }
    }

    /// What an event of a user that there isn't is answered.
    fn absent_user(&self) -> Outcome
        ensures { result ≡ Outcome.Reply (Reply.AbsentUser self.now.shape.users) }
    {
        Outcome::Reply(Reply::AbsentUser {
            users: self.shape.users,
        })
    }

    /// A request of the user.
    fn ask(&mut self, request: Request) -> Outcome
        ensures serves { GrowsTenant K.told K.faults self.old (Ask 0 request) result self.new }
        ensures rest { self.new ≡ record self.old { tenant = self.new.tenant; moves = self.new.moves } }
    {
        self.is_own = true;
        let ask = TenantAsk::Ask { moment: 0, request };
        let Told { outcome, slice } = self.tenant.apply(ask);
        match slice {
            None => outcome,
            Some(_other) => unreachable!(),
        }
    }

    /// The slice that came last into the hand goes to the user. One that the tenant hands back stays in the hand.
    fn grant(&mut self) -> Outcome
        ensures shape { self.new.shape ≡ self.old.shape }
        ensures empty { self.old.hand ≡ [] → result ≡ Outcome.HandEmpty }
        ensures kept { self.old.hand ≡ [] → self.new ≡ self.old }
        ensures given { (slice : SliceView) (hand : List SliceView) → self.old.hand ≡ slice ∷ hand
            → Gives K.told K.faults self.old slice hand result self.new }
        ensures store { KeepsStore K.told K.faults self.old self.new }
    {
        let Some(slice) = self.slices.hand.pop() else {
            return Outcome::HandEmpty;
        };
        self.is_own = true;
        let Told { outcome, slice } = self.tenant.apply(TenantAsk::Grant(slice));
        if let Some(slice) = slice {
            self.slices.hand.push_reserved(slice);
        }
        outcome
    }

    /// The pool's lowest slice comes into the hand.
    fn draw(&mut self) -> Outcome
        ensures drawn { (self.new, result) ≡ draw_of self.old self.old.pool }
        ensures tenant { self.new.tenant ≡ self.old.tenant }
    {
        let Some(slice) = self.slices.pool.pop() else {
            return Outcome::PoolEmpty;
        };
        let outcome = Outcome::Slice {
            slice: slice.id(),
            number: slice.number(),
        };
        self.slices.hand.push_reserved(slice);
        outcome
    }
}
