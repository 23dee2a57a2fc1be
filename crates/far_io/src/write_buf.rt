//! A buffer of 64 KiB in front of a sink, which gathers what is written until it is passed on.

ghost use Rattle.std.specs.Prelude.{◌≡◌, ◌+◌, ◌-◌, ◌≤◌, ℕ, List, [], ◌++◌, length, take, drop, IfOk, OnOk};
ghost use Rattle.far_io.specs.Faults.{HasCause};
ghost use Rattle.far_io.specs.Adds.{Adds, taken, GivesSome};
ghost use Rattle.far_io.specs.WriteBuf.{BufTook};
ghost use Rattle.far_io.specs.declared.write_buf.TheConstants.{ROOM};

use crate::outside::{Failed, Sink};
use crate::put::{WriteFault, give_most};
use std::alloc::{AllocError, Global};
use std::marker::Model;

/// The most bytes that are held back.
const ROOM: usize = 65536;

/// Room for the bytes that a [`WriteBuf`] holds back, at most 64 KiB. It takes its memory when it is made, and none
/// afterwards.
#[derive(Drop)]
pub struct WriteRoom {
    bytes: Vec<u8>,
    len: usize,
}

impl Model for WriteRoom {
    ghost use Rattle.std.specs.Prelude.{◌≡◌, ◌≤◌, ℕ, List, take, vec_len};
    ghost use Rattle.far_io.specs.declared.write_buf.TheConstants.{ROOM};

    ghost Value = { List ℕ };

    ghost view = { λ r. take r.len r.bytes.items };

    ghost invariant = { λ r. (r.len ≤ ROOM) × (vec_len r.bytes ≡ ROOM) };
}

impl WriteRoom {
    /// Room in which nothing is held.
    pub fn new(alloc: Global) -> Result<Self, AllocError>
        ensures { IfOk result (λ room. room ≡ []) }
    {
        Ok(WriteRoom {
            bytes: vec![in alloc; 0u8; ROOM]?,
            len: 0,
        })
    }

    // The bytes that are held.
    fn bytes(&self) -> &[u8]
        ensures { result.now ≡ self.now }
    {
        &self.bytes[..self.len]
    }

    // For how many more bytes there is room.
    fn left(&self) -> usize
        ensures { result + length self.now ≡ ROOM }
    {
        ROOM - self.len
    }

    // Holds these bytes after those that it holds.
    fn push_all(&mut self, bytes: &[u8])
        requires { length self.old + length bytes.now ≤ ROOM }
        ensures { self.new ≡ self.old ++ bytes.now }
    {
        let to = self.len + bytes.len();
        self.bytes[self.len..to].copy_from_slice(bytes);
        self.len = to;
    }

    // Lets go of the first `count` bytes.
    fn drop_front(&mut self, count: usize)
        requires { count ≤ length self.old }
        ensures { self.new ≡ drop count self.old }
    {
        self.bytes.copy_within(count..self.len, 0);
        self.len -= count;
    }
}

/// A sink that holds back what it is given, up to 64 KiB, and passes it on to the sink behind it where there is no more
/// room, or where it is told to. What it holds when it is dropped goes nowhere.
pub struct WriteBuf<'a, O: Sink> {
    sink: &'a mut O,
    room: &'a mut WriteRoom,
}

impl<'a, O: Sink> Drop for WriteBuf<'a, O> {
    fn drop(self)
        ensures { self.exit.0.now ≡ self.entry.sink.now }
    {
        let WriteBuf { sink: _, room: _ } = self;
    }
}

impl<'a, O: Sink> WriteBuf<'a, O> {
    /// A buffer in front of this sink. It holds nothing, whatever the room held.
    pub fn new(sink: &'a mut O, room: &'a mut WriteRoom) -> WriteBuf<'a, O>
        ensures same_sink { result.sink.ghost_name ≡ sink.entry.ghost_name }
        ensures sink { result.sink.now ≡ sink.old }
        ensures empty { result.room.now ≡ [] }
    {
        let held = room.bytes().len();
        room.drop_front(held);
        WriteBuf { sink, room }
    }

    /// Passes on all that is held. After a fault it holds what the sink behind it didn't take. Where nothing is held,
    /// nothing changes.
    pub fn pass_on(&mut self) -> Result<(), WriteFault>
        ensures empty { OnOk result (self.new.room.now ≡ []) }
        ensures still { self.old.room.now ≡ [] → self.new ≡ self.old }
        ensures bytes { Adds (BufTook O.took) self.old self.new [] }
        ensures cause { HasCause (O.faults self.old.sink.now) (O.faults self.new.sink.now) result }
    {
        let (done, result) = give_most(self.sink, self.room.bytes());
        self.room.drop_front(done);
        result
    }

    // Makes room for so many bytes: where there is too little, all that is held is passed on.
    fn make_room(&mut self, count: usize) -> Result<(), WriteFault>
        requires { count ≤ ROOM }
        ensures room { OnOk result (length self.new.room.now + count ≤ ROOM) }
        ensures bytes { Adds (BufTook O.took) self.old self.new [] }
        ensures cause { HasCause (O.faults self.old.sink.now) (O.faults self.new.sink.now) result }
    {
        if count <= self.room.left() {
            return Ok(());
        }
        self.pass_on()
    }
}

impl<'a, O: Sink> Sink for WriteBuf<'a, O> {
    ghost took = { BufTook O.took };

    ghost faults = { λ b. O.faults b.sink.now };

    fn give(&mut self, bytes: &[u8]) -> Result<usize, Failed> {
        if bytes.len() >= ROOM {
            self.pass_on()?;
            return self.sink.give(bytes);
        }
        self.make_room(bytes.len())?;
        self.room.push_all(bytes);
        Ok(bytes.len())
    }
}
