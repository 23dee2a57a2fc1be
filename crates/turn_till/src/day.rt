//! A day at a till, which two threads serve.
ghost use Rattle.std.specs.Prelude.{◌≡◌, ◌≢◌, ◌≤◌, ◌+◌, [], ◌∷◌, true, IfOk};
ghost use Rattle.turn_cell.specs.History.{In, logged, asks_by, entries};
ghost use Rattle.turn_cell.specs.Passes.{MakesAsks};
ghost use Rattle.turn_cell.specs.declared.knows.Logged.{Logged};
ghost use Rattle.turn_till.specs.declared.till.TillAsk.TheVariants.{Pay, Empty};
ghost use Rattle.turn_till.specs.declared.till.TillTell.TheVariants.{Emptied};
ghost use Rattle.turn_till.specs.declared.till.TillEntry.{TillEntry};
ghost use Rattle.turn_till.specs.Days.{payments, owner_asks};
ghost use Rattle.turn_till.specs.Rules.{till_ask, entry_of};
ghost use Rattle.turn_till.specs.Standing.{StandsFor, key_of_till};

use crate::till::{Till, TillAsk, TillTell};
use std::alloc::{AllocError, Global};
use std::sync::Wait;
use std::thread::{Threads, join};
use turn_cell::{CALLS_EACH, Pass, Shown, TurnCell};

/// A till after its day.
#[derive(Drop)]
pub struct Day {
    pub till: Till,
    pub shown: Shown<Till>,
    /// The number of the clerk's pass. The owner's is 0.
    pub clerk: u32,
    /// What the owner took out.
    pub taken: u64,
    /// The calls that the joined pass had left.
    pub calls_left: u64,
}

/// Pays in one.
fn pay<R: Wait>(rt: &R, cell: &TurnCell<Till>, pass: &mut Pass<Till>)
    requires cell { pass.old.cell ≡ cell.now }
    requires left { 1 ≤ pass.old.left }
    requires named { In pass.old.number pass.old.names }
    ensures asks { MakesAsks till_ask pass.old (Pay 1 ∷ []) pass.new }
{
    cell.call(rt, pass, TillAsk::Pay(1));
}

/// Pays in one so many times.
fn pay_in<R: Wait>(rt: &R, cell: &TurnCell<Till>, pass: &mut Pass<Till>, times: u32)
    requires cell { pass.old.cell ≡ cell.now }
    requires left { times ≤ pass.old.left }
    requires named { In pass.old.number pass.old.names }
    ensures asks { MakesAsks till_ask pass.old (payments times) pass.new }
{
    for _ in 0..times {
        pay(rt, cell, pass);
    }
}

/// Empties the till, and gives what was in it.
fn empty<R: Wait>(rt: &R, cell: &TurnCell<Till>, pass: &mut Pass<Till>) -> u64
    requires cell { pass.old.cell ≡ cell.now }
    requires left { 1 ≤ pass.old.left }
    requires right { pass.old.may_move ≡ true }
    requires named { In pass.old.number pass.old.names }
    ensures asks { MakesAsks till_ask pass.old (Empty ∷ []) pass.new }
    ensures taken { In (logged pass.old.number (entry_of Empty (Emptied result))) pass.new.seen }
{
    match cell.call(rt, pass, TillAsk::Empty) {
        TillTell::Emptied(taken) => taken,
        TillTell::Paid(_) | TillTell::Counted(_) => unreachable!(),
    }
}

/// The owner's calls: as many as said, of which the one in the middle empties the till. Gives what was taken out.
fn own<R: Wait>(
    rt: &R,
    cell: &TurnCell<Till>,
    mut pass: Pass<Till>,
    calls: u32,
) -> (Pass<Till>, u64)
    requires cell { pass.cell ≡ cell.now }
    requires some { 1 ≤ calls }
    requires left { calls ≤ pass.left }
    requires right { pass.may_move ≡ true }
    requires named { In pass.number pass.names }
    ensures asks { MakesAsks till_ask pass (owner_asks calls) result.0 }
    ensures taken { In (logged pass.number (entry_of Empty (Emptied result.1))) result.0.seen }
{
    pay_in(rt, cell, &mut pass, (calls - 1) / 2);
    let taken = empty(rt, cell, &mut pass);
    pay_in(rt, cell, &mut pass, calls / 2);
    (pass, taken)
}

/// The clerk's calls, all payments.
fn help<R: Wait>(rt: &R, cell: &TurnCell<Till>, mut pass: Pass<Till>, calls: u32) -> Pass<Till>
    requires cell { pass.cell ≡ cell.now }
    requires left { calls ≤ pass.left }
    requires named { In pass.number pass.names }
    ensures asks { MakesAsks till_ask pass (payments calls) result }
{
    pay_in(rt, cell, &mut pass, calls);
    pass
}

/// A day on which the owner and a clerk each make so many calls, at once, each with a pass of their own. Each call pays in one, but the one in the middle
/// of the owner's empties the till.
///
/// Whatever the order of their calls was, each of them stands in the one history that is shown, in its caller's order, and nothing else does; and the
/// till stands for that history. The one error is want of memory.
pub fn serve_two<R: Threads + Wait + Sync>(
    rt: &R,
    alloc: Global,
    float: u32,
    calls: u32,
) -> Result<Day, AllocError>
    requires { 1 ≤ calls }
    ensures stands { IfOk result (λ day. StandsFor day.till (entries day.shown)) }
    ensures float { IfOk result (λ day. key_of_till day.till ≡ record { float = float }) }
    ensures apart { IfOk result (λ day. day.clerk ≢ 0) }
    ensures owner { IfOk result (λ day. asks_by till_ask 0 day.shown ≡ owner_asks calls) }
    ensures clerk { IfOk result (λ day. asks_by till_ask day.clerk day.shown ≡ payments calls) }
    ensures alone { IfOk result (λ day. (l : Logged TillEntry) → In l day.shown → In l.by (0 ∷ day.clerk ∷ [])) }
    ensures taken { IfOk result (λ day. In (logged 0 (entry_of Empty (Emptied day.taken))) day.shown) }
    ensures left { IfOk result (λ day. day.calls_left + calls ≡ CALLS_EACH) }
{
    let (cell, owner, clerk) = TurnCell::new_for_two(alloc, Till::new(float))?;
    let number = clerk.number();
    let ((owner, taken), clerk) = join(
        rt,
        || -> (Pass<Till>, u64)
            requires cell { owner.cell ≡ cell }
            requires some { 1 ≤ calls }
            requires left { calls ≤ owner.left }
            requires right { owner.may_move ≡ true }
            requires named { In owner.number owner.names }
            ensures asks { MakesAsks till_ask owner (owner_asks calls) result.0 }
            ensures taken { In (logged owner.number (entry_of Empty (Emptied result.1))) result.0.seen }
        { own(rt, &cell, owner, calls) },
        || -> Pass<Till>
            requires cell { clerk.cell ≡ cell }
            requires left { calls ≤ clerk.left }
            requires named { In clerk.number clerk.names }
            ensures asks { MakesAsks till_ask clerk (payments calls) result }
        { help(rt, &cell, clerk, calls) },
    );
    let last = owner.join(clerk, &cell);
    let calls_left = last.calls_left();
    let (till, shown) = cell.close(last);
    Ok(Day {
        till,
        shown,
        clerk: number,
        taken,
        calls_left,
    })
}
