//! Images of one content, each written with its digest and read.
//!
//! The line has the bytes of an image, how many were read well and, but for `check`, the nanoseconds of a write and of a
//! read.

ghost use Rattle.std.specs.Prelude.{◌+◌, ◌^◌, ◌<◌, ◌≤◌, length};

use bench_lines::{Fault, Figure, Words, nanos_each, nanos_since, now, print_line};
use block_image::{HEAD, read_image, stamp_of, write_image};
use std::rt::Clock;

/// So many images of so many bytes are written, and as many read.
#[derive(Clone, Copy)]
pub struct ImageWork {
    bytes: u32,
    times: u32,
    ghost some: { 1 ≤ bytes },
    ghost limit: { bytes ≤ 65536 },
}

/// The work that the words after `image` ask for.
pub fn read_work(words: &Words) -> Result<ImageWork, Fault> {
    Ok(ImageWork {
        bytes: words.number(1, 1, 65_536)? as u32,
        times: words.number(2, 1, 1_000_000)? as u32,
    })
}

/// Four images of 64 bytes.
pub fn little() -> ImageWork {
    ImageWork {
        bytes: 64,
        times: 4,
    }
}

// Writes so many images of a content, and answers the length of the last one.
fn write_all(content: &[u8], out: &mut [u8], times: u32) -> usize
    requires some { 1 ≤ length content.now }
    requires within { length content.now ≤ 65536 }
    requires room { 53 + length content.now ≤ length out.old }
{
    let mut length = 0;
    for block in 0..times {
        let stamp = stamp_of(0, u64::from(block), content);
        length = write_image(&stamp, content, out);
    }
    length
}

// Reads an image so many times, and says how often it was good.
fn read_all(image: &[u8], times: u32) -> u32
    requires { length image.now < 2 ^ 32 }
{
    let mut good = 0u32;
    for _read in 0..times {
        if read_image(image).is_ok() {
            good = good.saturating_add(1);
        }
    }
    good
}

/// Writes and reads images, and prints their line.
pub fn measure<R: Clock + AllocGlobal + Print>(
    rt: &R,
    work: ImageWork,
    is_check: bool,
) -> Result<(), Fault> {
    let content = vec![in rt.alloc(); 7u8; work.bytes as usize]?;
    let mut image = vec![in rt.alloc(); 0u8; HEAD + work.bytes as usize]?;
    let times = u64::from(work.times);
    let start = now(rt)?;
    let length = write_all(content.as_slice(), image.as_mut_slice(), work.times);
    let writes = nanos_since(rt, start)?;
    let start = now(rt)?;
    let good = read_all(image.as_slice(), work.times);
    let reads = nanos_since(rt, start)?;
    let figures = [
        Figure {
            name: b"length",
            number: length as u64,
        },
        Figure {
            name: b"good",
            number: u64::from(good),
        },
        Figure {
            name: b"write",
            number: nanos_each(writes, times),
        },
        Figure {
            name: b"read",
            number: nanos_each(reads, times),
        },
    ];
    let shown = if is_check { 2 } else { 4 };
    print_line(rt, b"images", &figures[..shown])
}
