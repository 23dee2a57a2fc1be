//! Threads that call one worker, through a turn cell or under std's `Mutex`.

ghost use Rattle.std.specs.Prelude.{◌≡◌, ◌≤◌, All, IfOk};

use crate::worker::Worker;
use std::alloc::{AllocError, AllocFailed, Global};
use std::sync::{Mutex, Wait};
use std::thread::{Threads, map_indices, map_vec};
use turn_cell::{Pass, TurnCell};

// So many calls of one thread through its pass.
fn call_cell<R: Wait>(rt: &R, cell: &TurnCell<Worker>, mut pass: Pass<Worker>, calls: u32)
    requires cell { pass.cell ≡ cell.now }
    requires left { calls ≤ pass.left }
{
    for _call in 0..calls {
        cell.call(rt, &mut pass, ());
    }
}

// So many calls of one thread under the lock.
fn call_mutex<R: Wait>(rt: &R, lock: &Mutex<Worker>, calls: u32) {
    for _call in 0..calls {
        lock.lock(rt).work();
    }
}

// A pass for each thread.
fn passes(
    alloc: Global,
    cell: &TurnCell<Worker>,
    first: &mut Pass<Worker>,
    threads: u32,
) -> Result<Vec<Pass<Worker>>, AllocError>
    requires cell { first.old.cell ≡ cell.now }
    ensures first { first.new.cell ≡ first.old.cell }
    ensures left { first.new.left ≡ first.old.left }
    ensures cell { IfOk result (λ passes. All (λ pass. (pass.cell ≡ cell.now) × (pass.left ≡ 4294967296)) passes.items) }
{
    let mut passes = Vec::new(alloc);
    for _thread in 0..threads {
        let Ok(pass) = first.split(cell) else {
            return Err(AllocError);
        };
        if let Err(AllocFailed { value }) = passes.push(pass) {
            drop(value);
            return Err(AllocError);
        }
    }
    Ok(passes)
}

/// Each thread makes so many calls through a cell. The number is that of one more call, after all of them, the same for
/// every order of the calls.
pub fn run_cell<R: Threads + Wait + Sync>(
    rt: &R,
    alloc: Global,
    threads: u32,
    calls: u32,
) -> Result<u64, AllocError> {
    let (cell, mut first) = TurnCell::new(alloc, Worker::new())?;
    let passes = passes(alloc, &cell, &mut first, threads)?;
    map_vec(
        rt,
        passes,
        &|pass: Pass<Worker>|
            requires cell { pass.cell ≡ cell }
            requires left { calls ≤ pass.left }
        { call_cell(rt, &cell, pass, calls) },
    )?;
    Ok(cell.call(rt, &mut first, ()))
}

/// The same under a lock.
pub fn run_mutex<R: Threads + Wait + Sync>(
    rt: &R,
    alloc: Global,
    threads: u32,
    calls: u32,
) -> Result<u64, AllocError> {
    let lock = Mutex::new(Worker::new());
    map_indices(
        rt,
        alloc,
        threads as usize,
        &|_| { call_mutex(rt, &lock, calls) },
    )?;
    Ok(lock.lock(rt).work())
}
