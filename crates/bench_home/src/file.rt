//! A file in a home: appends and reads of one size, beside so many blocks, none of them parked.
//!
//! The line has the length of the file, the sum of the bytes that reads began with and, but for `check`, the nanoseconds
//! of an append and of a read.

ghost use Rattle.std.specs.Prelude.{◌≤◌};
ghost use Rattle.block_file.specs.Files.{IsSound};

use crate::full::{MOST_SLICES, full_home};
use bench_lines::{Fault, Figure, Words, nanos_each, nanos_since, now, print_line};
use block_file::FileBody;
use block_home::Home;
use far_words::{Blob, MOST_IN_FILE};
use shelf_link::Shelf;
use std::alloc::Global;
use std::rt::Clock;

/// A file is filled with `blocks` blocks of `size` bytes, in a home of `slices` slices. Then so many appends of `piece`
/// bytes are timed, and as many reads.
#[derive(Clone, Copy)]
pub struct FileWork {
    size: u32,
    slices: u32,
    blocks: u64,
    piece: u32,
    calls: u32,
    ghost some: { 1 ≤ size },
    ghost limit: { size ≤ 65536 },
}

/// The work that the words after `home` ask for.
pub fn read_work(words: &Words) -> Result<FileWork, Fault> {
    let size = words.number(1, 1, 65_536)?;
    let blocks = words.number(2, 1, MOST_SLICES)?;
    let piece = words.number(3, 1, 65_536)?;
    let calls = words.number(4, 1, 1_000_000)?;
    let added = (piece * calls).div_ceil(size);
    if blocks + added > MOST_SLICES {
        return Err(Fault::Words);
    }
    Ok(FileWork {
        size: size as u32,
        slices: (blocks + added) as u32,
        blocks,
        piece: piece as u32,
        calls: calls as u32,
    })
}

/// Eight blocks of 64 bytes, and four calls of 100 bytes.
pub fn little() -> FileWork {
    FileWork {
        size: 64,
        slices: 15,
        blocks: 8,
        piece: 100,
        calls: 4,
    }
}

// Appends the bytes so many times. False says that the home or the memory was exhausted.
fn append_all<K: Shelf>(file: &mut FileBody, home: &mut Home<K>, bytes: &[u8], times: u64) -> bool
    requires sound { IsSound home.old.seats file.old }
    ensures sound { IsSound home.new.seats file.new }
{
    for _call in 0..times {
        let length = bytes.len() as u64;
        if length > MOST_IN_FILE || file.length() > MOST_IN_FILE - length {
            return false;
        }
        let need = file.need(home, length);
        if home.prepare(need).is_err() || file.append(home, bytes).is_err() {
            return false;
        }
    }
    true
}

// Reads so many bytes at places that are spread over the file, and adds up the first of each.
fn read_all<K: Shelf>(
    file: &mut FileBody,
    home: &mut Home<K>,
    alloc: Global,
    piece: u32,
    times: u64,
) -> Option<u64>
    requires sound { IsSound home.old.seats file.old }
    ensures sound { IsSound home.new.seats file.new }
{
    let mut out = Blob::new(alloc);
    let mut sum = 0u64;
    let mut place = 0u64;
    for _call in 0..times {
        if file.read(home, place, piece, &mut out).is_err() {
            return None;
        }
        sum = sum.wrapping_add(u64::from(out.items().first().copied().unwrap_or(0)));
        place = place.wrapping_add(7_919 * 64) % file.length().max(1);
    }
    Some(sum)
}

fn new_file<K>(alloc: Global, _home: &Home<K>) -> FileBody
    ensures { IsSound _home.now.seats result }
{
    FileBody::new(alloc)
}

/// Does the work, and prints its line.
pub fn measure<R: Clock + AllocGlobal + Print>(
    rt: &R,
    work: FileWork,
    is_check: bool,
) -> Result<(), Fault> {
    let mut home = full_home(rt.alloc(), work.size, work.slices)?;
    let mut file = new_file(rt.alloc(), &home);
    let block = vec![in rt.alloc(); 7u8; work.size as usize]?;
    let piece = vec![in rt.alloc(); 9u8; work.piece as usize]?;
    let calls = u64::from(work.calls);
    let filled = append_all(&mut file, &mut home, block.as_slice(), work.blocks);

    let start = now(rt)?;
    let appended = append_all(&mut file, &mut home, piece.as_slice(), calls);
    let appends = nanos_since(rt, start)?;
    let start = now(rt)?;
    let read = read_all(&mut file, &mut home, rt.alloc(), work.piece, calls);
    let reads = nanos_since(rt, start)?;

    let Some(sum) = read else {
        return Err(Fault::Refused);
    };
    if !filled || !appended {
        return Err(Fault::Refused);
    }
    let figures = [
        Figure {
            name: b"length",
            number: file.length(),
        },
        Figure {
            name: b"sum",
            number: sum,
        },
        Figure {
            name: b"append",
            number: nanos_each(appends, calls),
        },
        Figure {
            name: b"read",
            number: nanos_each(reads, calls),
        },
    ];
    let shown = if is_check { 2 } else { 4 };
    print_line(rt, b"home", &figures[..shown])
}
