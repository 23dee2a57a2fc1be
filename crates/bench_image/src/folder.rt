//! Blocks of 64 KiB, put into a folder and got back.
//!
//! The line has how many blocks were put, how many were found whole and, but for `check`, the nanoseconds of a put and of
//! a get.

use bench_lines::{Fault, Figure, nanos_each, nanos_since, now, print_line};
use block_image::MOST_IN_BLOCK;
use shelf_link::{Got, Shelf, ShelfDir, SureShelf};
use std::rt::{Clock, Files};

// Puts so many blocks of the same bytes, and says how many puts were well.
fn put_all<K: Shelf>(shelf: &mut K, bytes: &[u8], blocks: u32) -> u32 {
    let mut well = 0u32;
    for block in 0..blocks {
        if shelf.put(u64::from(block), bytes).is_ok() {
            well = well.saturating_add(1);
        }
    }
    well
}

// Gets so many blocks, and says how many of them have as many bytes as the buffer.
fn get_all<K: Shelf>(shelf: &mut K, out: &mut [u8], blocks: u32) -> u32 {
    let mut found = 0u32;
    for block in 0..blocks {
        if let Ok(Got::Bytes(count)) = shelf.get(u64::from(block), out)
            && count == out.len()
        {
            found = found.saturating_add(1);
        }
    }
    found
}

fn measure<R: Clock + AllocGlobal + Print, K: Shelf>(
    rt: &R,
    shelf: &mut K,
    blocks: u32,
    is_check: bool,
) -> Result<(), Fault> {
    let bytes = vec![in rt.alloc(); 7u8; MOST_IN_BLOCK as usize]?;
    let mut out = vec![in rt.alloc(); 0u8; MOST_IN_BLOCK as usize]?;
    let calls = u64::from(blocks);
    let start = now(rt)?;
    let put = put_all(shelf, bytes.as_slice(), blocks);
    let puts = nanos_since(rt, start)?;
    let start = now(rt)?;
    let found = get_all(shelf, out.as_mut_slice(), blocks);
    let gets = nanos_since(rt, start)?;
    let figures = [
        Figure {
            name: b"blocks",
            number: u64::from(put),
        },
        Figure {
            name: b"found",
            number: u64::from(found),
        },
        Figure {
            name: b"put",
            number: nanos_each(puts, calls),
        },
        Figure {
            name: b"get",
            number: nanos_each(gets, calls),
        },
    ];
    let shown = if is_check { 2 } else { 4 };
    print_line(rt, b"store", &figures[..shown])
}

/// Puts so many blocks into a folder, gets them, and prints their line.
pub fn measure_folder<R: Clock + AllocGlobal + Print + Files + Clone + Drop>(
    rt: &R,
    folder: &str,
    blocks: u32,
) -> Result<(), Fault> {
    let Ok(files) = rt.clone() else {
        return Err(Fault::NoMemory);
    };
    let folder = String::from_str(rt.alloc(), folder)?;
    let mut shelf = ShelfDir::new(files, rt.alloc(), folder, 0);
    measure(rt, &mut shelf, blocks, false)
}

/// The same with three blocks in memory that is reserved, and without times.
pub fn measure_memory<R: Clock + AllocGlobal + Print>(rt: &R) -> Result<(), Fault> {
    let mut shelf = SureShelf::new(rt.alloc(), 3, MOST_IN_BLOCK as usize)?;
    measure(rt, &mut shelf, 3, true)
}
