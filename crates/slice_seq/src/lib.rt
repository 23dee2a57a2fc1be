//! Slices of memory. A slice is one value: it can't be cloned, so what holds it has it alone.
//! Its number rises with each grant and each use, so a slice's id and number name at most one use for ever.
#![tactic(auto)]

ghost use Rattle.std.specs.Prelude.{◌≡◌, ◌+◌, ◌<◌, ◌≤◌, ◌↔◌, [], length, IsTrue, IsErr, IfOk, IfErr};
ghost use Rattle.slice_seq.specs.Used.{written_at};

use std::alloc::{AllocError, Global};
use std::marker::Model;

/// The number of a worn slice, 2^63. It no longer rises, and the slice is never used again.
pub const WORN: u64 = 0x8000_0000_0000_0000;

/// A slice without a block: a buffer that is reserved when the slice is made.
///
/// It isn't `Drop`, so no code can lose it by an oversight: a slice is handed on, or ended by `Slice::free`.
pub struct Slice {
    id: u32,
    number: u64,
    buffer: Vec<u8>,
}

impl Model for Slice {
    ghost use Rattle.std.specs.Prelude.{ℕ, ◌<◌, ◌≤◌, ◌^◌, vec_len};
    ghost use Rattle.slice_seq.specs.Slice.{SliceView};
    ghost use Rattle.slice_seq.specs.declared.TheConstants.{WORN};

    ghost Value = { SliceView };

    ghost view = { λ s. record { id = s.id; size = vec_len s.buffer; number = s.number } };

    ghost invariant = { λ s. (s.number ≤ WORN) × (vec_len s.buffer < 2 ^ 32) };
}

/// A slice with a block. Like `Slice` it isn't `Drop`, and it becomes a `Slice` again by `Used::retire`.
pub struct Used {
    id: u32,
    length: u32,
    number: u64,
    buffer: Vec<u8>,
}

impl Model for Used {
    ghost use Rattle.std.specs.Prelude.{ℕ, ◌<◌, ◌≤◌, ◌^◌, take, vec_len};
    ghost use Rattle.slice_seq.specs.Used.{UsedView};
    ghost use Rattle.slice_seq.specs.declared.TheConstants.{WORN};

    ghost Value = { UsedView };

    ghost view = { λ u. record {
      id = u.id;
      size = vec_len u.buffer;
      number = u.number;
      bytes = take u.length u.buffer.items;
    } };

    ghost invariant = { λ u. (u.number ≤ WORN) × (vec_len u.buffer < 2 ^ 32) × (u.length ≤ vec_len u.buffer) };
}

impl Slice {
    ghost use Rattle.slice_seq.specs.Slice.{raised};

    /// A slice of `size` bytes. This is the only call here that takes memory.
    pub fn fresh(alloc: Global, id: u32, size: u32, number: u64) -> Result<Slice, AllocError>
        requires { number ≤ WORN }
        ensures { IfOk result (λ slice. slice ≡ record { id = id; size = size; number = number }) }
    {
        Ok(Slice {
            id,
            number,
            buffer: vec![in alloc; 0; size as usize]?,
        })
    }

    /// Which slice it is.
    pub fn id(&self) -> u32
        ensures { result ≡ self.now.id }
    {
        self.id
    }

    /// How many bytes it has room for.
    pub fn size(&self) -> u32
        ensures { result ≡ self.now.size }
    {
        self.buffer.len() as u32
    }

    /// How often it was granted or used, up to `WORN`.
    pub fn number(&self) -> u64
        ensures value { result ≡ self.now.number }
        ensures limit { self.now.number ≤ WORN }
    {
        self.number
    }

    /// Whether its number has come to its end.
    pub fn is_worn(&self) -> bool
        ensures worn { IsTrue result ↔ (self.now.number ≡ WORN) }
        ensures limit { self.now.number ≤ WORN }
    {
        self.number == WORN
    }

    /// The slice as its next holder gets it: the number rises by one, or stays where the slice is worn.
    pub fn grant(self) -> Slice
        ensures number { result ≡ record self { number = raised self.number } }
        ensures later { self.number ≤ result.number }
        ensures limit { result.number ≤ WORN }
    {
        let Slice { id, number, buffer } = self;
        let raised = if number < WORN { number + 1 } else { number };
        Slice {
            id,
            number: raised,
            buffer,
        }
    }

    /// Begins a use of the slice, without bytes and under the next number. A worn slice is handed back.
    pub fn fresh_use(self) -> Result<Used, Slice>
        ensures used { IfOk result (λ used. used
            ≡ record { id = self.id; size = self.size; number = self.number + 1; bytes = [] }) }
        ensures unused { IfErr result (λ slice. slice ≡ self) }
        ensures worn { IsErr result ↔ (self.number ≡ WORN) }
        ensures limit { self.number ≤ WORN }
    {
        if self.is_worn() {
            return Err(self);
        }
        let Slice { id, number, buffer } = self;
        Ok(Used {
            id,
            length: 0,
            number: number + 1,
            buffer,
        })
    }

    /// Gives the slice's memory back for good. Nothing that goes on calls it: what holds slices does where it ends itself, as a
    /// user's home does and the thread's pool and hand.
    pub fn free(self) {
        let Slice {
            id: _,
            number: _,
            buffer: _,
        } = self;
    }
}

impl Used {
    /// Which slice it is.
    pub fn id(&self) -> u32
        ensures { result ≡ self.now.id }
    {
        self.id
    }

    /// How many bytes it has room for.
    pub fn size(&self) -> u32
        ensures { result ≡ self.now.size }
    {
        self.buffer.len() as u32
    }

    /// The number of this use.
    pub fn number(&self) -> u64
        ensures value { result ≡ self.now.number }
        ensures limit { self.now.number ≤ WORN }
    {
        self.number
    }

    /// How many bytes the block has.
    pub fn length(&self) -> u32
        ensures value { result ≡ length self.now.bytes }
        ensures limit { length self.now.bytes ≤ self.now.size }
    {
        self.length
    }

    /// The block's bytes.
    pub fn read(&self) -> &[u8]
        ensures value { result.now ≡ self.now.bytes }
        ensures limit { length self.now.bytes ≤ self.now.size }
    {
        &self.buffer[..self.length as usize]
    }

    /// Writes bytes over the block's own, from place `at` on, which may stand at its end.
    pub fn write_at(&mut self, at: u32, bytes: &[u8])
        requires within { at ≤ length self.old.bytes }
        requires fits { at + length bytes.now ≤ self.old.size }
        ensures { self.new ≡ record self.old { bytes = written_at self.old.bytes at bytes.now } }
    {
        let at = at as usize;
        let end = at + bytes.len();
        write_over(&mut self.buffer, at, bytes);
        self.length = self.length.max(end as u32);
    }

    /// Makes these bytes the block's bytes.
    pub fn set(&mut self, bytes: &[u8])
        requires { length bytes.now ≤ self.old.size }
        ensures { self.new ≡ record self.old { bytes = bytes.now } }
    {
        write_over(&mut self.buffer, 0, bytes);
        self.length = bytes.len() as u32;
    }

    /// Ends the use: the block is gone, and the number stays.
    pub fn retire(self) -> Slice
        ensures { result ≡ record { id = self.id; size = self.size; number = self.number } }
    {
        let Used {
            id,
            length: _,
            number,
            buffer,
        } = self;
        Slice { id, number, buffer }
    }
}

fn write_over(buffer: &mut [u8], at: usize, bytes: &[u8])
    requires { at + length bytes.now ≤ length buffer.old }
    ensures { buffer.new ≡ written_at buffer.old at bytes.now }
{
    buffer[at..at + bytes.len()].copy_from_slice(bytes);
}
