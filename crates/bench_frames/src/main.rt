//! Measures frames, and answers frames for a check by another program.
//!
//! The words are `frames WHAT SIZE CALLS`, with `append`, `put`, `get` or `places` for WHAT, or `check` for a few frames of
//! each kind and what is the same on every machine; the lines are those of [`frames`]. With `decode` it answers each line
//! of its input, as [`lines`] says.
#![tactic(auto)]

mod frames;
mod lines;

use bench_lines::{Fault, Words, end_of};
use far_io::ReadSource;
use frames::What;
use std::process::ExitCode;

const USAGE: &str = "frames append|put|get|places SIZE CALLS, decode, or check";

fn check(rt: &HostRuntime) -> Result<(), Fault> {
    for what in [What::Append(2), What::Put, What::Get, What::Places(3)] {
        frames::measure(rt, frames::little(what), true)?;
    }
    Ok(())
}

fn decode(rt: &HostRuntime) -> Result<(), Fault> {
    let mut source = ReadSource::new(rt.stdin());
    lines::answer_lines(rt, &mut source)
}

fn run(rt: &HostRuntime) -> Result<(), Fault> {
    let words = Words::new(rt)?;
    match words.word(0) {
        "frames" => frames::measure(rt, frames::read_work(&words)?, false),
        "decode" => decode(rt),
        "check" => check(rt),
        _ => Err(Fault::Words),
    }
}

fn main(rt: HostRuntime) -> ExitCode {
    let ended = run(&rt);
    end_of(&rt, ended, USAGE)
}
