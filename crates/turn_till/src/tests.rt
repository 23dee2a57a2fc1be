//! The till in a cell: two threads, seventy, and one that has two passes.
ghost use Rattle.std.specs.Prelude.{◌≡◌, ◌≤◌, All, IfOk};

use super::*;
use std::alloc::{AllocError, AllocFailed, Global};
use std::hint;
use std::sync::Wait;
use std::sync::atomic::{AtomicU64, Ordering};
use std::test::Fail;
use std::thread::map_vec;
use turn_cell::{CALLS_EACH, Object, Pass, TurnCell};

/// More threads than a cell has bells.
const THREADS: u32 = 70;

/// A pass for each of the threads.
fn clerks(
    alloc: Global,
    cell: &TurnCell<Till>,
    owner: &mut Pass<Till>,
) -> Result<Vec<Pass<Till>>, Fail>
    requires cell { owner.old.cell ≡ cell.now }
    ensures owner { owner.new ≡ record owner.old { made = owner.new.made; found = owner.new.found } }
    ensures cell { IfOk result (λ clerks. All (λ pass. pass.cell ≡ cell.now) clerks.items) }
    ensures left { IfOk result (λ clerks. All (λ pass. pass.left ≡ CALLS_EACH) clerks.items) }
{
    let mut clerks = Vec::new(alloc);
    for _thread in 0..THREADS {
        let clerk = owner.split(cell)?;
        if let Err(AllocFailed { value }) = clerks.push(clerk) {
            drop(value);
            return Err(AllocError.into());
        }
    }
    Ok(clerks)
}

/// Looks until all threads are there, but not for ever.
fn meet_others(arrived: &AtomicU64) {
    arrived.fetch_add(1, Ordering::SeqCst);
    for _look in 0..100_000 {
        if arrived.load(Ordering::SeqCst) >= u64::from(THREADS) {
            return;
        }
        hint::spin_loop();
    }
}

/// Pays in one, twice, and gives what was in the till after the second payment.
fn pay_twice<R: Wait>(rt: &R, cell: &TurnCell<Till>, mut pass: Pass<Till>) -> u64
    requires cell { pass.cell ≡ cell.now }
    requires left { 2 ≤ pass.left }
{
    cell.call(rt, &mut pass, TillAsk::Pay(1));
    match cell.call(rt, &mut pass, TillAsk::Pay(1)) {
        TillTell::Paid(Some(cash)) => cash,
        TillTell::Paid(None) | TillTell::Counted(_) | TillTell::Emptied(_) => 0,
    }
}

#[test]
fn seventy_threads_pay(rt: HostRuntime) -> Result<(), Fail> {
    let (cell, mut owner) = TurnCell::new(rt.alloc(), Till::new(5))?;
    let clerks = clerks(rt.alloc(), &cell, &mut owner)?;
    let arrived = AtomicU64::new(0);
    let told = map_vec(
        &rt,
        clerks,
        &|pass: Pass<Till>| -> u64
            requires cell { pass.cell ≡ cell }
            requires left { 2 ≤ pass.left }
        {
            meet_others(&arrived);
            pay_twice(&rt, &cell, pass)
        },
    )?;
    // Each thread saw the two that it paid itself, and one saw them all.
    let least = told.iter().copied().min();
    let most = told.iter().copied().max();
    assert!(rt; least.is_some_and(|cash| cash >= 7));
    assert_eq!(rt; most, Some(145));
    let TillTell::Counted(cash) = cell.call(&rt, &mut owner, TillAsk::Count) else {
        panic!(rt; "the till is counted")
    };
    assert_eq!(rt; cash, 145);
    Ok(())
}

#[test]
fn two_threads_serve_a_day(rt: HostRuntime) -> Result<(), Fail> {
    let day = serve_two(&rt, rt.alloc(), 100, 1000)?;
    assert_eq!(rt; day.calls_left, 4_294_966_296);
    assert_eq!(rt; day.clerk, 1);
    assert_eq!(rt; day.taken.checked_add(day.till.cash()), Some(2099));
    Ok(())
}

#[test]
fn two_passes_meet_and_join(rt: HostRuntime) -> Result<(), Fail> {
    let (cell, mut owner) = TurnCell::new(rt.alloc(), Till::new(5))?;
    let Ok(mut clerk) = owner.split(&cell) else {
        panic!(rt; "there are passes")
    };
    assert!(rt; owner.may_move() && !clerk.may_move());
    assert!(rt; Till::is_move(&TillAsk::Empty) && Till::fits(cell.key(), &TillAsk::Count));
    cell.call(&rt, &mut clerk, TillAsk::Pay(7));
    owner.meet(&mut clerk, &cell);
    let TillTell::Emptied(taken) = cell.call(&rt, &mut owner, TillAsk::Empty) else {
        panic!(rt; "the till is emptied")
    };
    assert_eq!(rt; taken, 12);
    let last = clerk.join(owner, &cell);
    assert!(rt; last.number() == 1 && last.may_move());
    assert_eq!(rt; last.calls_left(), 4_294_967_295);
    let (till, _shown) = cell.close(last);
    assert_eq!(rt; till.cash(), 0);
    Ok(())
}
