//! The cell, its passes, and what is left of a cell that was closed.
ghost use Rattle.std.specs.Prelude.{◌≡◌, ℕ, ◌<◌, ◌≤◌, ◌-◌, ◌⊎◌, [], ◌∷◌, length, true, false, IfOk, OnErr, MatchResult, Some};
ghost use Rattle.turn_cell.specs.declared.cell.PassEnd.TheVariants.{NoMorePasses};
ghost use Rattle.turn_cell.specs.declared.knows.Logged.{Logged};
ghost use Rattle.turn_cell.specs.History.{In, calls_by, longer, entries};
ghost use Rattle.turn_cell.specs.Passes.{first_pass, split_first, split_pass, joined_pass, StillSees, Calls};
ghost use Rattle.turn_cell.specs.Turns.{IsSeatOf, IsReady, Learns};

use crate::bells::Bells;
use crate::knows::{Knows, LastCall, Slot};
use crate::object::Object;
use crate::steps::{Count, Cut, Glue, Learn, Note, Number, Settle, Turns};
use crate::turn::{PASSES, SeatOf, TableOf, turn};
use atomic_table::{Badge, Refused, Seat, Table, TableRule};
use std::alloc::{AllocError, AllocFailed, Global};
use std::error::Error;
use std::fmt;
use std::marker::Model;
use std::sync::{Mutex, Wait};

/// How many numbers of one cell name passes: 2^30.
pub const MOST_PASSES: u64 = 0x4000_0000;

/// How many calls a new pass may make: 2^32.
pub const CALLS_EACH: u64 = 0x1_0000_0000;

/// A cell by its parts: what lies in the slot, the entries, the key and the rule. [`TurnCell`] is this type for an object.
///
/// It is generic in plain parameters, since a struct with the bound `Object` isn't found to be `Send` or `Sync`.
#[derive(Drop)]
pub struct TurnTable<S, E, K, P: TableRule<S, Knows<E, K>, K>> {
    table: Table<S, Knows<E, K>, K, P, Global>,
    key: K,
    bells: Bells,
    /// Held over each call, so that who is inside is served at once. No promise rests on it.
    gate: Mutex<()>,
}

impl<S, E, K, P: TableRule<S, Knows<E, K>, K>> Model for TurnTable<S, E, K, P> {
    ghost use Rattle.turn_cell.specs.Passes.{CellView, IsCell};

    ghost Value = { CellView K };

    ghost view = { λ c. record { table = c.table.shared.table_id; key = c.key } };

    ghost invariant = { λ c. IsCell c.table.shared.table_id c.table.shared.key c.key };
}

/// A pass by its parts: what lies in the slot, the entries and the key. [`Pass`] is this type for an object.
#[derive(Drop)]
pub struct TurnSeat<S, E, K> {
    seat: Seat<S, Knows<E, K>>,
    key: K,
    number: u32,
    left: u64,
    may_move: bool,
}

impl<S, E, K> Model for TurnSeat<S, E, K> {
    ghost use Rattle.turn_cell.specs.Passes.{PassView, pass_view, IsPass};

    ghost Value = { PassView E K };

    ghost view = { λ p. pass_view p.seat.table_id p.key p.seat.me.0 };

    ghost invariant = { λ p. IsPass p.seat.me p.key p.number p.left p.may_move };
}

/// The history of a closed cell, by its entries and key. [`Shown`] is this type for an object.
#[derive(Drop)]
pub struct ShownHistory<E, K> {
    note: Badge<Knows<E, K>>,
}

impl<E, K> Model for ShownHistory<E, K> {
    ghost use Rattle.std.specs.Prelude.{List};
    ghost use Rattle.turn_cell.specs.declared.knows.Logged.{Logged};
    ghost use Rattle.turn_cell.specs.Turns.{seen_by};

    ghost Value = { List (Logged E) };

    ghost view = { λ s. seen_by s.note.views };
}

/// An object that many threads call in turn. Contracts see it as its identity and its key.
pub type TurnCell<B> = TurnTable<
    Slot<B, LastCall<B, <B as Object>::Ask, <B as Object>::Tell>>,
    <B as Object>::Entry,
    <B as Object>::Key,
    Turns<B>,
>;

/// The right to call the object of one cell. Contracts see it as what its owner knows, which the crate's first page lists.
pub type Pass<B> = TurnSeat<
    Slot<B, LastCall<B, <B as Object>::Ask, <B as Object>::Tell>>,
    <B as Object>::Entry,
    <B as Object>::Key,
>;

/// The whole history of a cell that was closed, which contracts see. [`TurnCell::close`] alone makes one. It takes no bytes.
pub type Shown<B> = ShownHistory<<B as Object>::Entry, <B as Object>::Key>;

/// Why a pass can't be split.
#[derive(Clone, Copy, Debug, PartialEq, Eq)]
pub enum PassEnd {
    /// This many numbers of passes were drawn of the cell before, and at most [`MOST_PASSES`] name a pass.
    NoMorePasses { made: u64 },
}

impl fmt::Display for PassEnd {
    fn fmt<W: fmt::Write>(&self, f: &mut fmt::Formatter<W>) -> fmt::Result {
        f.write_str("no more passes of the cell can be made")
    }
}

impl Error for PassEnd {}

impl<B: Object> TurnCell<B> {
    /// A cell with this object, and its first pass, which has the number 0, [`CALLS_EACH`] calls left and the right to move.
    ///
    /// The history is empty. The one error is want of memory, which gives the object up.
    pub fn new(alloc: Global, object: B) -> Result<(TurnCell<B>, Pass<B>), AllocError>
    where
        B: Drop,
        requires { B.stands object [] }
        ensures key { IfOk result (λ r. r.0.key ≡ B.key_of object) }
        ensures first { IfOk result (λ r. r.1 ≡ first_pass r.0) }
    {
        let bells = Bells::new(alloc)?;
        let key = object.key();
        let mut slots = Vec::with_capacity(alloc, 1)?;
        if let Err(AllocFailed { value }) = slots.push(Slot::Here(object, None)) {
            drop(value);
            return Err(AllocError);
        }
        match Table::new(alloc, &[1, 0, 0], slots, &key) {
            Ok((table, seat)) => {
                let first = TurnSeat {
                    seat,
                    key,
                    number: 0,
                    left: CALLS_EACH,
                    may_move: true,
                };
                let gate = Mutex::new(());
                let cell = TurnTable {
                    table,
                    key,
                    bells,
                    gate,
                };
                Ok((cell, first))
            }
            Err(Refused { slots: _ }) => Err(AllocError),
        }
    }

    /// A cell with this object, and the passes of two callers: its first, and one that was split from that.
    ///
    /// The one error is want of memory, which gives the object up.
    pub fn new_for_two(
        alloc: Global,
        object: B,
    ) -> Result<(TurnCell<B>, Pass<B>, Pass<B>), AllocError>
    where
        B: Drop,
        requires { B.stands object [] }
        ensures key { IfOk result (λ r. r.0.key ≡ B.key_of object) }
        ensures first { IfOk result (λ r. r.1 ≡ split_first r.0 r.2.number) }
        ensures second { IfOk result (λ r. r.2 ≡ split_pass (first_pass r.0) r.2.number) }
        ensures apart { IfOk result (λ r. 0 < r.2.number) }
    {
        let (cell, mut first) = TurnCell::new(alloc, object)?;
        let Ok(second) = first.split(&cell) else {
            // Each number that was drawn is a name of the pass with which a cell closes. This one has a single name, so not all can have been drawn.
            cell.close(first);
            unreachable!()
        };
        Ok((cell, first, second))
    }

    /// The object's key.
    pub fn key(&self) -> B::Key
        ensures { result ≡ self.now.key }
    {
        self.key
    }

    /// Makes one call, once its turn has come, and answers what the object does.
    ///
    /// The pass has then seen the whole history up to its own entry, which is the last. The call waits for the calls before it. It takes no memory
    /// besides what the object takes.
    pub fn call<R: Wait>(&self, rt: &R, pass: &mut Pass<B>, ask: B::Ask) -> B::Tell
        requires cell { pass.old.cell ≡ self.now }
        requires left { 1 ≤ pass.old.left }
        requires fits { B.allows self.now.key ask ≡ true }
        requires right { B.moves ask ≡ true → pass.old.may_move ≡ true }
        ensures same { pass.new ≡ record pass.old { left = pass.old.left - 1; seen = pass.new.seen } }
        ensures history { Calls B.key_of B.stands B.moving B.moves B.entry B.answers pass.old ask result pass.new.seen }
    {
        let gate = self.gate.lock(rt);
        let tell = turn::<B, R>(rt, &self.table.shared, &self.bells, &mut pass.seat, ask);
        drop(gate);
        pass.left -= 1;
        tell
    }

    /// Ends the cell, and gives the object and the whole history, which the pass has seen.
    ///
    /// The pass has to be the only one left: all others were joined into it. It is, where the first pass is among its names, and with each name all
    /// that were split from it. Each number of a pass that was drawn, as far as the pass has come upon it, is then one of its names: where a split was
    /// refused on the way, all of them are.
    pub fn close(self, pass: Pass<B>) -> (B, Shown<B>)
        requires cell { pass.cell ≡ self }
        requires first { In 0 pass.names }
        requires only { (n : ℕ) → In n pass.made → In n pass.names }
        ensures shows { result.1 ≡ pass.seen }
        ensures stands { B.stands result.0 (entries result.1) }
        ensures callers { (l : Logged B.Entry) → In l result.1 → In l.by pass.names }
        ensures drawn { (n : ℕ) → n < pass.found → n < MOST_PASSES → In n pass.names }
        ensures right { pass.may_move ≡ true }
        ensures key { B.key_of result.0 ≡ self.key }
    {
        let TurnTable {
            table,
            key: _,
            bells: _,
            gate: _,
        } = self;
        let TurnSeat {
            mut seat,
            key: _,
            number: _,
            left: _,
            may_move: _,
        } = pass;
        let note = table.shared.split_seat::<Note>(&mut seat).into_badge();
        let mut closed = table.close_with(seat);
        let slot = closed.take(0);
        closed.free();
        match slot {
            Slot::Here(object, last) => {
                drop(last);
                (object, ShownHistory { note })
            }
            Slot::Away => unreachable!(),
        }
    }
}

/// One pass learns what another has seen, by a note.
fn learn<B: Object>(table: &TableOf<B>, seat: &mut SeatOf<B>, other: &mut SeatOf<B>)
    requires seats { IsSeatOf table.now.table_id seat.old.table_id × (other.old.table_id ≡ table.now.table_id) }
    requires ready { IsReady seat.old.me }
    ensures other { (other.new.table_id ≡ other.old.table_id) × (other.new.me ≡ other.old.me) }
    ensures seat { seat.new.table_id ≡ seat.old.table_id }
    ensures learned { Learns B.moving seat.old.me other.old.me.0.seen seat.new.me }
{
    let note = table.split_seat::<Note>(other);
    table.join_seat::<Learn>(seat, note);
    table.load::<Settle<B>>(seat, PASSES);
}

impl<B: Object> Pass<B> {
    /// The number under which the pass's calls stand in the history. No other pass of the cell ever has it.
    pub fn number(&self) -> u32
        ensures number { result ≡ self.now.number }
        ensures named { In result self.now.names }
    {
        self.number
    }

    /// How many calls the pass may still make.
    pub fn calls_left(&self) -> u64
        ensures { result ≡ self.now.left }
    {
        self.left
    }

    /// Whether the pass has the right to move, which one pass of the cell has.
    pub fn may_move(&self) -> bool
        ensures { result ≡ self.now.may_move }
    {
        self.may_move
    }

    /// Makes a pass that has seen what this one has seen, has [`CALLS_EACH`] calls left and no right to move.
    ///
    /// Its number is above each number that this pass knows, and no entry that was seen is under it. It takes no memory. `NoMorePasses` comes exactly
    /// where [`MOST_PASSES`] numbers or more had been drawn when this call looked or drew, and `made` is how many it found.
    pub fn split(&mut self, cell: &TurnCell<B>) -> Result<Pass<B>, PassEnd>
        requires cell { self.old.cell ≡ cell.now }
        ensures same { self.new ≡ record self.old { made = self.new.made; found = self.new.found } }
        ensures rose { self.old.found ≤ self.new.found }
        ensures exactly { MatchResult result (λ p. p.number < MOST_PASSES) (λ e. MOST_PASSES ≤ self.new.found) }
        ensures found { MatchResult result (λ p. self.new.found ≡ p.number) (λ e. e ≡ NoMorePasses self.new.found) }
        ensures made { IfOk result (λ p. self.new.made ≡ p.number ∷ self.old.made) }
        ensures none_made { OnErr result (self.new.made ≡ self.old.made) }
        ensures pass { IfOk result (λ p. p ≡ split_pass self.old p.number) }
        ensures fresh { IfOk result (λ p. (n : ℕ) → In n self.old.names ⊎ In n self.old.made → n < p.number) }
        ensures unused { IfOk result (λ p. calls_by p.number self.old.seen ≡ []) }
    {
        let table = &cell.table.shared;
        let made = table.load::<Count>(&mut self.seat, PASSES);
        if made >= MOST_PASSES {
            return Err(PassEnd::NoMorePasses { made });
        }
        let number = table.fetch_add::<Number>(&mut self.seat, PASSES, 1);
        if number >= MOST_PASSES {
            return Err(PassEnd::NoMorePasses { made: number });
        }
        let seat = table.split_seat::<Cut>(&mut self.seat);
        Ok(TurnSeat {
            seat,
            key: self.key,
            number: number as u32,
            left: CALLS_EACH,
            may_move: false,
        })
    }

    /// Makes two passes one, with the number of `self`.
    ///
    /// It has the names of both, has seen the longer of what the two had seen, has the smaller of their calls left, and has the right to move where one
    /// of them had it. It takes no memory.
    pub fn join(self, other: Pass<B>, cell: &TurnCell<B>) -> Pass<B>
        requires cell { (self.cell ≡ cell.now) × (other.cell ≡ cell.now) }
        ensures joined { result ≡ joined_pass self other }
        ensures mine { StillSees B.moving self result.seen }
        ensures theirs { StillSees B.moving other result.seen }
        ensures apart { (n : ℕ) → In n self.names → ¬ In n other.names }
        ensures right { self.may_move ≡ true → ¬ (other.may_move ≡ true) }
    {
        let TurnSeat {
            seat: mut mine,
            key,
            number,
            left,
            may_move,
        } = self;
        let TurnSeat {
            seat: theirs,
            key: _,
            number: _,
            left: their_left,
            may_move: they_may_move,
        } = other;
        let table = &cell.table.shared;
        table.join_seat::<Glue>(&mut mine, theirs);
        table.load::<Settle<B>>(&mut mine, PASSES);
        TurnSeat {
            seat: mine,
            key,
            number,
            left: left.min(their_left),
            may_move: may_move | they_may_move,
        }
    }

    /// Both passes have then seen the longer of what the two had seen, and all else of both stays. It takes no memory and draws no number.
    pub fn meet(&mut self, other: &mut Pass<B>, cell: &TurnCell<B>)
        requires cell { (self.old.cell ≡ cell.now) × (other.old.cell ≡ cell.now) }
        ensures mine { self.new ≡ record self.old { seen = longer self.old.seen other.old.seen } }
        ensures theirs { other.new ≡ record other.old { seen = longer self.old.seen other.old.seen } }
        ensures still_mine { StillSees B.moving self.old self.new.seen }
        ensures still_theirs { StillSees B.moving other.old other.new.seen }
    {
        let table = &cell.table.shared;
        learn::<B>(table, &mut self.seat, &mut other.seat);
        learn::<B>(table, &mut other.seat, &mut self.seat);
    }
}
