//! Measures a turn cell beside std's `Mutex`: threads that call one worker, whose call works about a microsecond.
//!
//! The words are `cell THREADS CALLS` or `mutex THREADS CALLS`, or `check` for a few calls of both and what is the same on
//! every machine. The line has how many calls were made, the worker's number after one more and, but for `check`, the
//! nanoseconds of a call.
#![tactic(auto)]

mod threads;
mod worker;

use bench_lines::{Fault, Figure, Words, end_of, nanos_each, nanos_since, now, print_line};
use std::alloc::{AllocError, Global};
use std::env::Env;
use std::process::ExitCode;
use std::rt::Clock;
use std::sync::Wait;
use std::thread::Threads;
use threads::{run_cell, run_mutex};

const USAGE: &str = "cell THREADS CALLS, mutex THREADS CALLS, or check";

/// The most calls of a run, of all threads together.
const MOST_CALLS: u64 = 1_000_000_000;

/// So many threads that each make so many calls.
#[derive(Clone, Copy)]
struct Work {
    is_cell: bool,
    threads: u32,
    calls: u32,
}

// The calls are divided among the threads.
fn read_work(words: &Words, is_cell: bool) -> Result<Work, Fault> {
    let threads = words.number(1, 1, 64)?;
    let calls = words.number(2, 1, MOST_CALLS)?;
    Ok(Work {
        is_cell,
        threads: threads as u32,
        calls: (calls / threads) as u32,
    })
}

fn little(is_cell: bool) -> Work {
    Work {
        is_cell,
        threads: 4,
        calls: 25,
    }
}

fn run_threads<R: Threads + Wait + Sync>(
    rt: &R,
    alloc: Global,
    work: Work,
) -> Result<u64, AllocError> {
    if work.is_cell {
        return run_cell(rt, alloc, work.threads, work.calls);
    }
    run_mutex(rt, alloc, work.threads, work.calls)
}

// The time is that of the whole run, with the start and the end of the threads in it.
fn measure<R: Clock + AllocGlobal + Print + Threads + Wait + Sync>(
    rt: &R,
    work: Work,
    is_check: bool,
) -> Result<(), Fault> {
    let start = now(rt)?;
    let number = run_threads(rt, rt.alloc(), work)?;
    let time = nanos_since(rt, start)?;
    let made = u64::from(work.threads) * u64::from(work.calls);
    let figures = [
        Figure {
            name: b"calls",
            number: made,
        },
        Figure {
            name: b"number",
            number,
        },
        Figure {
            name: b"time",
            number: nanos_each(time, made),
        },
    ];
    let shown = if is_check { 2 } else { 3 };
    let name: &[u8] = if work.is_cell { b"cell" } else { b"mutex" };
    print_line(rt, name, &figures[..shown])
}

fn run<R: Env + Clock + AllocGlobal + Print + Threads + Wait + Sync>(rt: &R) -> Result<(), Fault> {
    let words = Words::new(rt)?;
    match words.word(0) {
        "cell" => measure(rt, read_work(&words, true)?, false),
        "mutex" => measure(rt, read_work(&words, false)?, false),
        "check" => {
            measure(rt, little(true), true)?;
            measure(rt, little(false), true)
        }
        _ => Err(Fault::Words),
    }
}

fn main(rt: HostRuntime) -> ExitCode {
    let ended = run(&rt);
    end_of(&rt, ended, USAGE)
}
