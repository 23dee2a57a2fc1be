//! Measures a home over a store in memory: a file in it, blocks that are parked, and a queue.
//!
//! The words are `home SIZE BLOCKS PIECE CALLS`, `parks SIZE BLOCKS CALLS` or `queue SIZE ITEMS BYTES`, or `check` for a
//! little of each and what is the same on every machine. The lines are those of [`file`], [`park`] and [`queue`].
#![tactic(auto)]

mod file;
mod full;
mod park;
mod queue;

use bench_lines::{Fault, Words, end_of};
use std::process::ExitCode;

const USAGE: &str =
    "home SIZE BLOCKS PIECE CALLS, parks SIZE BLOCKS CALLS, queue SIZE ITEMS BYTES, or check";

fn check(rt: &HostRuntime) -> Result<(), Fault> {
    file::measure(rt, file::little(), true)?;
    park::measure(rt, park::little(), true)?;
    queue::measure(rt, queue::little(), true)
}

fn run(rt: &HostRuntime) -> Result<(), Fault> {
    let words = Words::new(rt)?;
    match words.word(0) {
        "home" => file::measure(rt, file::read_work(&words)?, false),
        "parks" => park::measure(rt, park::read_work(&words)?, false),
        "queue" => queue::measure(rt, queue::read_work(&words)?, false),
        "check" => check(rt),
        _ => Err(Fault::Words),
    }
}

fn main(rt: HostRuntime) -> ExitCode {
    let ended = run(&rt);
    end_of(&rt, ended, USAGE)
}
