//! Blocks of a home that are parked in its store, read there, and loaded again.
//!
//! The line has how many were parked, read and loaded and, but for `check`, the nanoseconds of each.

ghost use Rattle.std.specs.Prelude.{◌≤◌, length};

use crate::full::{MOST_SLICES, full_home};
use bench_lines::{Fault, Figure, Words, nanos_each, nanos_since, now, print_line};
use block_home::Home;
use shelf_link::Shelf;
use std::rt::Clock;

/// Of `blocks` blocks of `size` bytes the first `calls` are parked, then read, then loaded.
#[derive(Clone, Copy)]
pub struct ParkWork {
    size: u32,
    blocks: u32,
    calls: u32,
    ghost some: { 1 ≤ size },
    ghost limit: { size ≤ 65536 },
}

/// The work that the words after `parks` ask for.
pub fn read_work(words: &Words) -> Result<ParkWork, Fault> {
    let size = words.number(1, 1, 65_536)?;
    let blocks = words.number(2, 1, MOST_SLICES)?;
    let calls = words.number(3, 1, blocks)?;
    Ok(ParkWork {
        size: size as u32,
        blocks: blocks as u32,
        calls: calls as u32,
    })
}

/// Three of five blocks of 64 bytes.
pub fn little() -> ParkWork {
    ParkWork {
        size: 64,
        blocks: 5,
        calls: 3,
    }
}

// Adds so many blocks of these bytes, as far as the home has room for them.
fn add_all<K: Shelf>(home: &mut Home<K>, bytes: &[u8], blocks: u32)
    requires some { 1 ≤ length bytes.now }
    requires fits { length bytes.now ≤ home.old.seats.size }
{
    for _block in 0..blocks {
        if home.prepare(1).is_err() {
            return;
        }
        home.add(bytes);
    }
}

// Parks the first blocks, and says how many of them.
fn park_all<K: Shelf>(home: &mut Home<K>, blocks: u32) -> u32 {
    let mut parked = 0u32;
    for block in 0..blocks {
        let block = u64::from(block);
        if home.has(block) && home.park(block).is_ok() {
            parked = parked.saturating_add(1);
        }
    }
    parked
}

// Reads the first blocks whole, and says how many of them.
fn read_all<K: Shelf>(home: &mut Home<K>, out: &mut [u8], blocks: u32) -> u32 {
    let mut read = 0u32;
    for block in 0..blocks {
        let block = u64::from(block);
        if home.has(block)
            && out.len() <= home.length(block) as usize
            && home.read(block, 0, out).is_ok()
        {
            read = read.saturating_add(1);
        }
    }
    read
}

// Loads the first blocks, each after the home was asked for room, and says how many of them.
fn load_all<K: Shelf>(home: &mut Home<K>, blocks: u32) -> u32 {
    let mut loaded = 0u32;
    for block in 0..blocks {
        let block = u64::from(block);
        if home.has(block) && home.prepare(1).is_ok() && home.load(block).is_ok() {
            loaded = loaded.saturating_add(1);
        }
    }
    loaded
}

/// Does the work, and prints its line.
pub fn measure<R: Clock + AllocGlobal + Print>(
    rt: &R,
    work: ParkWork,
    is_check: bool,
) -> Result<(), Fault> {
    let mut home = full_home(rt.alloc(), work.size, work.blocks)?;
    let bytes = vec![in rt.alloc(); 7u8; work.size as usize]?;
    let mut out = vec![in rt.alloc(); 0u8; work.size as usize]?;
    let calls = u64::from(work.calls);
    add_all(&mut home, bytes.as_slice(), work.blocks);

    let start = now(rt)?;
    let parked = park_all(&mut home, work.calls);
    let parks = nanos_since(rt, start)?;
    let start = now(rt)?;
    let read = read_all(&mut home, out.as_mut_slice(), work.calls);
    let reads = nanos_since(rt, start)?;
    let start = now(rt)?;
    let loaded = load_all(&mut home, work.calls);
    let loads = nanos_since(rt, start)?;

    let figures = [
        Figure {
            name: b"parked",
            number: u64::from(parked),
        },
        Figure {
            name: b"found",
            number: u64::from(read),
        },
        Figure {
            name: b"loaded",
            number: u64::from(loaded),
        },
        Figure {
            name: b"park",
            number: nanos_each(parks, calls),
        },
        Figure {
            name: b"read",
            number: nanos_each(reads, calls),
        },
        Figure {
            name: b"load",
            number: nanos_each(loads, calls),
        },
    ];
    let shown = if is_check { 3 } else { 6 };
    print_line(rt, b"parks", &figures[..shown])
}
