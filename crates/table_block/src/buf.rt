//! A buffer for one block, and records put into it, changed and taken out.

ghost use Rattle.std.specs.Prelude.{◌≡◌, ℕ, List, ◌+◌, ◌-◌, ◌^◌, ◌<◌, ◌≤◌, ◌++◌, ◌∷◌, [], length, min, take, drop, IfOk, vec_len, vec_capacity};
ghost use Rattle.std.specs.Borrow.{Lends, Array, sem, u8};
ghost use Rattle.std.specs.List.{refill};
ghost use Rattle.table_block.specs.contracts.buf.BlockBuf.{the_row};
ghost use Rattle.table_block.specs.Records.{Record, head, spelling, IsBlock};
ghost use Rattle.table_block.specs.Spots.{IsAt, IsSpot};

use crate::spots::Spot;
use std::alloc::{AllocError, Global};
use std::marker::Model;

/// The bytes of one block, in room that is reserved when it is made. No other call takes memory.
#[derive(Drop)]
pub struct BlockBuf {
    bytes: Vec<u8>,
    size: u32,
}

impl Model for BlockBuf {
    ghost use Rattle.std.specs.Prelude.{◌≤◌, length, vec_capacity};
    ghost use Rattle.table_block.specs.Bufs.{BufView};

    ghost Value = { BufView };

    ghost view = { λ buf. record { bytes = buf.bytes.items; size = buf.size } };

    ghost invariant = { λ buf. (length buf.bytes.items ≤ buf.size) × (buf.size ≤ vec_capacity buf.bytes) × (buf.size ≤ 65536) };
}

impl BlockBuf {
    ghost use Rattle.table_block.specs.Bufs.{empty_buf};

    /// A buffer without bytes, with room for `size` of them.
    pub fn new(alloc: Global, size: u32) -> Result<BlockBuf, AllocError>
        requires { size ≤ 65536 }
        ensures { IfOk result (λ buf. buf ≡ empty_buf size) }
    {
        Ok(BlockBuf {
            bytes: Vec::with_capacity(alloc, size as usize)?,
            size,
        })
    }

    /// The bytes.
    pub fn bytes(&self) -> &[u8]
        ensures value { result.now ≡ self.now.bytes }
        ensures limit { length self.now.bytes ≤ self.now.size }
    {
        self.bytes.as_slice()
    }

    /// How many bytes it has room for.
    pub fn size(&self) -> u32
        ensures value { result ≡ self.now.size }
        ensures limit { self.now.size ≤ 65536 }
    {
        self.size
    }

    /// Takes all bytes out.
    pub fn clear(&mut self)
        ensures { self.new ≡ empty_buf self.old.size }
    {
        self.bytes.clear();
    }

    /// Makes these bytes the block's bytes.
    pub fn set(&mut self, bytes: &[u8])
        requires { length bytes.now ≤ self.old.size }
        ensures { self.new ≡ record { bytes = bytes.now; size = self.old.size } }
    {
        self.bytes.clear();
        put(&mut self.bytes, bytes);
    }

    /// Makes it so many bytes, of which none is told: they are to be read into.
    pub fn resize(&mut self, len: u32)
        requires { len ≤ self.old.size }
        ensures len { length self.new.bytes ≡ len }
        ensures size { self.new.size ≡ self.old.size }
    {
        match self.bytes.resize(len as usize, 0) {
            Ok(()) => {}
            Err(AllocError) => unreachable!(),
        }
    }

    /// The bytes, to be read into.
    pub fn bytes_mut(&mut self) -> &mut [u8]
        ensures* writes_back { sem 𝓛 (Lends the_row (Array u8 0) self.entry result
            (λ bytes. record { bytes = refill (length self.old.bytes) self.old.bytes bytes; size = self.old.size })) }
        ensures value { result.now ≡ self.old.bytes }
        ensures len { length result.now ≡ length self.old.bytes }
    {
        self.bytes.as_mut_slice()
    }

    // Moves the bytes from a place on so that they begin at another place. What stood before both places stays.
    fn move_tail(&mut self, from: usize, to: usize)
        requires within { from ≤ length self.old.bytes }
        requires fits { from < to → length self.old.bytes + to ≤ self.old.size + from }
        ensures front { take (min from to) self.new.bytes ≡ take (min from to) self.old.bytes }
        ensures tail { drop to self.new.bytes ≡ drop from self.old.bytes }
        ensures len { length self.new.bytes + from ≡ length self.old.bytes + to }
        ensures size { self.new.size ≡ self.old.size }
        ensures limit { (length self.new.bytes ≤ self.new.size) × (self.new.size ≤ 65536) }
    {
        let len = self.bytes.len();
        let end = len - from + to;
        match self.bytes.resize(len.max(end), 0) {
            Ok(()) => {}
            Err(AllocError) => unreachable!(),
        }
        self.bytes.copy_within(from..len, to);
        self.bytes.truncate(end);
    }

    // Writes bytes over those that stand from a place on.
    fn write(&mut self, at: usize, piece: &[u8])
        requires { at + length piece.now ≤ length self.old.bytes }
        ensures bytes { self.new ≡ record {
          bytes = take at self.old.bytes ++ piece.now ++ drop (at + length piece.now) self.old.bytes;
          size = self.old.size;
        } }
        ensures len { length self.new.bytes ≡ length self.old.bytes }
    {
        self.bytes[at..at + piece.len()].copy_from_slice(piece);
    }
}

// Adds bytes at the end, in room that is there.
fn put(bytes: &mut Vec<u8>, piece: &[u8])
    requires { vec_len bytes.old + length piece.now ≤ vec_capacity bytes.old }
    ensures items { bytes.new.items ≡ bytes.old.items ++ piece.now }
    ensures capacity { vec_capacity bytes.old ≤ vec_capacity bytes.new }
{
    match bytes.extend_from_slice(piece) {
        Ok(()) => {}
        Err(AllocError) => unreachable!(),
    }
}

/// Adds a record's bytes at the end of others, in room that is there.
pub fn put_record(bytes: &mut Vec<u8>, key: &[u8], value: &[u8])
    requires key_fits { length key.now < 2 ^ 16 }
    requires value_fits { length value.now < 2 ^ 16 }
    requires room { vec_len bytes.old + head + length key.now + length value.now ≤ vec_capacity bytes.old }
    ensures items { bytes.new.items ≡ bytes.old.items ++ spelling (key.now, value.now) }
    ensures len { length bytes.new.items ≡ length bytes.old.items + head + length key.now + length value.now }
    ensures capacity { vec_capacity bytes.old ≤ vec_capacity bytes.new }
{
    put(bytes, &(key.len() as u16).to_be_bytes());
    put(bytes, &(value.len() as u16).to_be_bytes());
    put(bytes, key);
    put(bytes, value);
}

/// Puts a record at the end. That its key isn't there is for the caller to know: nothing is looked for.
pub fn insert(buf: &mut BlockBuf, key: &[u8], value: &[u8])
    requires { length buf.old.bytes + head + length key.now + length value.now ≤ buf.old.size }
    ensures bytes { buf.new ≡ record { bytes = buf.old.bytes ++ spelling (key.now, value.now); size = buf.old.size } }
    ensures block { (records : List Record) → IsBlock buf.old.bytes records
        → IsBlock buf.new.bytes (records ++ (key.now, value.now) ∷ []) }
{
    put_record(&mut buf.bytes, key, value);
}

/// Gives the record in a place another value. The record stays in its place, and its key stays.
pub fn replace(buf: &mut BlockBuf, spot: &Spot, value: &[u8])
    requires found { IsSpot buf.old.bytes spot.now }
    requires fits { length buf.old.bytes + length value.now ≤ buf.old.size + (spot.now.end - spot.now.value) }
    ensures block { (before : List Record) (this : Record) (after : List Record)
        → IsAt buf.old.bytes spot.now before this after
        → IsBlock buf.new.bytes (before ++ (this.0, value.now) ∷ after) }
    ensures size { buf.new.size ≡ buf.old.size }
{
    let from = spot.value as usize;
    buf.move_tail(spot.end as usize, from + value.len());
    buf.write(from, value);
    buf.write(spot.at as usize + 2, &(value.len() as u16).to_be_bytes());
}

/// Takes the record in a place out.
pub fn remove(buf: &mut BlockBuf, spot: &Spot)
    requires { IsSpot buf.old.bytes spot.now }
    ensures block { (before : List Record) (this : Record) (after : List Record)
        → IsAt buf.old.bytes spot.now before this after → IsBlock buf.new.bytes (before ++ after) }
    ensures size { buf.new.size ≡ buf.old.size }
{
    buf.move_tail(spot.end as usize, spot.at as usize);
}
