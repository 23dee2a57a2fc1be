//! Measures Karma's rule alone: the time of a quantum by levels of credits.
//!
//! The words are `USERS QUANTA TIMES SEED`, or `check` for a few quanta and what is the same on every machine.
//! A line for each size of numbers has how many quanta were made, how many slices the last of them gave and, but for
//! `check`, the usual time of one in nanoseconds. The sizes take turns, quantum by quantum, over the same choices, so that
//! other work on the machine hits all alike.
#![tactic(auto)]

mod rows;
mod track;

ghost use Rattle.std.specs.Prelude.{◌≤◌};
ghost use Rattle.bench_quantum.specs.declared.rows.TheConstants.{MOST_TIMES};
ghost use Rattle.karma_rule.specs.declared.limits.TheConstants.{MOST_USERS};

use bench_lines::{Fault, Figure, Words, end_of, print_line};
use karma_rule::MOST_USERS;
use rows::{GREATEST, MIXED, MOST_TIMES, SMALL};
use std::process::ExitCode;
use std::rt::Clock;
use track::Track;

const USAGE: &str = "USERS QUANTA TIMES SEED, or check";

/// So many quanta of so many users, with demands up to `times` fair shares that follow from the seed.
#[derive(Clone, Copy)]
struct Work {
    users: u32,
    quanta: u32,
    times: u32,
    seed: u64,
    ghost few_users: { users ≤ MOST_USERS },
    ghost few_times: { times ≤ MOST_TIMES },
}

fn read_work(words: &Words) -> Result<Work, Fault> {
    Ok(Work {
        users: words.number(0, 1, MOST_USERS)? as u32,
        quanta: words.number(1, 1, 1_000_000)? as u32,
        times: words.number(2, 1, MOST_TIMES)? as u32,
        seed: words.number(3, 0, u64::MAX)?,
    })
}

fn little() -> Work {
    Work {
        users: 7,
        quanta: 5,
        times: 2,
        seed: 4,
    }
}

fn print_track<R: Print>(
    rt: &R,
    name: &[u8],
    track: &mut Track,
    is_check: bool,
) -> Result<(), Fault> {
    let figures = [
        Figure {
            name: b"quanta",
            number: track.quanta(),
        },
        Figure {
            name: b"given",
            number: track.given(),
        },
        Figure {
            name: b"time",
            number: track.usual_time(),
        },
    ];
    let shown = if is_check { 2 } else { 3 };
    print_line(rt, name, &figures[..shown])
}

fn measure<R: Clock + AllocGlobal + Print>(
    rt: &R,
    work: Work,
    is_check: bool,
) -> Result<(), Fault> {
    let mut small = Track::new(rt.alloc(), SMALL, work.seed);
    let mut greatest = Track::new(rt.alloc(), GREATEST, work.seed);
    let mut mixed = Track::new(rt.alloc(), MIXED, work.seed);
    for _quantum in 0..work.quanta {
        small.make_quantum(rt, work.users, work.times)?;
        mixed.make_quantum(rt, work.users, work.times)?;
        greatest.make_quantum(rt, work.users, work.times)?;
    }
    print_track(rt, b"small", &mut small, is_check)?;
    print_track(rt, b"greatest", &mut greatest, is_check)?;
    print_track(rt, b"mixed", &mut mixed, is_check)
}

fn run(rt: &HostRuntime) -> Result<(), Fault> {
    let words = Words::new(rt)?;
    match words.word(0) {
        "check" => measure(rt, little(), true),
        _ => measure(rt, read_work(&words)?, false),
    }
}

fn main(rt: HostRuntime) -> ExitCode {
    let ended = run(&rt);
    end_of(&rt, ended, USAGE)
}
