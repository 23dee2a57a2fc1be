//! A queue in a home: pushes and then pops of items of one size, none of them parked, beside a `VecDeque` of as many blobs.
//!
//! A line for each has the sum of the first bytes of all items that came out and, but for `check`, the nanoseconds of a
//! push and of a pop.

ghost use Rattle.std.specs.Prelude.{◌≤◌};
ghost use Rattle.block_queue.specs.Queues.{IsSound};

use crate::full::{MOST_SLICES, full_home};
use bench_lines::{Fault, Figure, Words, nanos_each, nanos_since, now, print_line};
use block_home::Home;
use block_queue::QueueBody;
use far_words::{Blob, MOST_IN_QUEUE};
use queue_block::HEAD;
use shelf_link::Shelf;
use std::alloc::{AllocError, AllocFailed, Global};
use std::collections::VecDeque;
use std::rt::Clock;

/// So many items of `item` bytes go into a queue in a home of `slices` slices of `size` bytes, and come out.
#[derive(Clone, Copy)]
pub struct QueueWork {
    size: u32,
    slices: u32,
    item: u32,
    items: u64,
    ghost some: { 1 ≤ size },
    ghost limit: { size ≤ 65536 },
}

/// The work that the words after `queue` ask for.
pub fn read_work(words: &Words) -> Result<QueueWork, Fault> {
    let size = words.number(1, 5, 65_536)?;
    let items = words.number(2, 1, 10_000_000)?;
    let item = words.number(3, 1, size - 4)?;
    let slices = items.div_ceil(size / (item + 4));
    if slices > MOST_SLICES {
        return Err(Fault::Words);
    }
    Ok(QueueWork {
        size: size as u32,
        slices: slices as u32,
        item: item as u32,
        items,
    })
}

/// Ten items of 9 bytes, of which four fit in a block of 64.
pub fn little() -> QueueWork {
    QueueWork {
        size: 64,
        slices: 3,
        item: 9,
        items: 10,
    }
}

// Pushes the item so many times. False says that the home, the queue or the memory was exhausted.
fn push_all<K: Shelf>(queue: &mut QueueBody, home: &mut Home<K>, item: &[u8], times: u64) -> bool
    requires sound { IsSound home.old.seats queue.old }
    ensures sound { IsSound home.new.seats queue.new }
{
    for _call in 0..times {
        if HEAD + item.len() > home.size() as usize || queue.count() >= MOST_IN_QUEUE {
            return false;
        }
        if queue.push(home, item).is_err() {
            return false;
        }
    }
    true
}

// Pops so many items, and adds up the first byte of each. None says that there were fewer.
fn pop_all<K: Shelf>(queue: &mut QueueBody, home: &mut Home<K>, times: u64) -> Option<u64>
    requires sound { IsSound home.old.seats queue.old }
    ensures sound { IsSound home.new.seats queue.new }
{
    let mut sum = 0u64;
    for _call in 0..times {
        match queue.pop(home) {
            Ok(Some(item)) => sum = sum.wrapping_add(first_of(&item)),
            _ => return None,
        }
    }
    Some(sum)
}

fn first_of(item: &Blob) -> u64 {
    u64::from(item.items().first().copied().unwrap_or(0))
}

// Puts so many copies of the item into a deque.
fn fill_deque(alloc: Global, item: &[u8], times: u64) -> Result<VecDeque<Blob>, AllocError> {
    let mut deque = VecDeque::new(alloc);
    for _call in 0..times {
        let blob = Blob::from_slice(alloc, item)?;
        if let Err(AllocFailed { value }) = deque.push_back(blob) {
            drop(value);
            return Err(AllocError);
        }
    }
    Ok(deque)
}

// Takes so many out of it, and adds up the first byte of each.
fn drain_deque(deque: &mut VecDeque<Blob>, times: u64) -> u64 {
    let mut sum = 0u64;
    for _call in 0..times {
        if let Some(item) = deque.pop_front() {
            sum = sum.wrapping_add(first_of(&item));
        }
    }
    sum
}

fn new_queue<K>(alloc: Global, _home: &Home<K>) -> QueueBody
    ensures { IsSound _home.now.seats result }
{
    QueueBody::new(alloc)
}

// The line of a queue or a deque.
fn print_sum<R: Print>(
    rt: &R,
    name: &[u8],
    sum: u64,
    pushes: u64,
    pops: u64,
    is_check: bool,
) -> Result<(), Fault> {
    let figures = [
        Figure {
            name: b"sum",
            number: sum,
        },
        Figure {
            name: b"push",
            number: pushes,
        },
        Figure {
            name: b"pop",
            number: pops,
        },
    ];
    let shown = if is_check { 1 } else { 3 };
    print_line(rt, name, &figures[..shown])
}

fn measure_queue<R: Clock + AllocGlobal + Print>(
    rt: &R,
    work: QueueWork,
    item: &[u8],
    is_check: bool,
) -> Result<(), Fault> {
    let mut home = full_home(rt.alloc(), work.size, work.slices)?;
    let mut queue = new_queue(rt.alloc(), &home);
    let start = now(rt)?;
    let pushed = push_all(&mut queue, &mut home, item, work.items);
    let pushes = nanos_each(nanos_since(rt, start)?, work.items);
    let start = now(rt)?;
    let popped = pop_all(&mut queue, &mut home, work.items);
    let pops = nanos_each(nanos_since(rt, start)?, work.items);
    match popped {
        Some(sum) if pushed => print_sum(rt, b"queue", sum, pushes, pops, is_check),
        _ => Err(Fault::Refused),
    }
}

fn measure_deque<R: Clock + AllocGlobal + Print>(
    rt: &R,
    work: QueueWork,
    item: &[u8],
    is_check: bool,
) -> Result<(), Fault> {
    let start = now(rt)?;
    let mut deque = fill_deque(rt.alloc(), item, work.items)?;
    let pushes = nanos_each(nanos_since(rt, start)?, work.items);
    let start = now(rt)?;
    let sum = drain_deque(&mut deque, work.items);
    let pops = nanos_each(nanos_since(rt, start)?, work.items);
    print_sum(rt, b"deque", sum, pushes, pops, is_check)
}

/// Does the work, and prints its lines.
pub fn measure<R: Clock + AllocGlobal + Print>(
    rt: &R,
    work: QueueWork,
    is_check: bool,
) -> Result<(), Fault> {
    let item = vec![in rt.alloc(); 7u8; work.item as usize]?;
    measure_queue(rt, work, item.as_slice(), is_check)?;
    measure_deque(rt, work, item.as_slice(), is_check)
}
