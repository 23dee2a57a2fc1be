//! Measures what a store costs: images of blocks with their digests, and blocks in a folder.
//!
//! The words are `image BYTES TIMES` or `dir FOLDER BLOCKS`, or `check` for a few images, and a few blocks in memory, and
//! what is the same on every machine. The lines are those of [`images`] and [`folder`].
#![tactic(auto)]

mod folder;
mod images;

use bench_lines::{Fault, Words, end_of};
use std::process::ExitCode;

const USAGE: &str = "image BYTES TIMES, dir FOLDER BLOCKS, or check";

fn run(rt: &HostRuntime) -> Result<(), Fault> {
    let words = Words::new(rt)?;
    match words.word(0) {
        "image" => images::measure(rt, images::read_work(&words)?, false),
        "dir" => {
            let blocks = words.number(2, 1, 1_000_000)? as u32;
            folder::measure_folder(rt, words.word(1), blocks)
        }
        "check" => {
            images::measure(rt, images::little(), true)?;
            folder::measure_memory(rt)
        }
        _ => Err(Fault::Words),
    }
}

fn main(rt: HostRuntime) -> ExitCode {
    let ended = run(&rt);
    end_of(&rt, ended, USAGE)
}
