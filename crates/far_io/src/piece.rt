//! Pieces of at most 4 KiB on the stack, in which what is written waits for a sink.

ghost use Rattle.std.specs.Prelude.{◌≡◌, ℕ, ◌+◌, ◌<◌, ◌≤◌, List, [], ◌∷◌, ◌++◌, length, take, decimal, OnErr, OnOk};
ghost use Rattle.far_io.specs.Faults.{HasCause};
ghost use Rattle.far_io.specs.Adds.{Adds, AddsPrefix};
ghost use Rattle.far_io.specs.Sends.{Sends};

use crate::outside::Sink;
use crate::put::{WriteFault, put_all};
use std::marker::Model;

/// The most bytes that a piece holds.
const ROOM: usize = 4096;

/// At most 4096 bytes that wait for a sink. It stands on the stack and takes no memory.
#[derive(Drop)]
pub struct Piece {
    bytes: [u8; 4096],
    len: usize,
}

impl Model for Piece {
    ghost Value = { List ℕ };

    ghost view = { λ p. take p.len p.bytes };

    ghost invariant = { λ p. p.len ≤ 4096 };
}

impl Piece {
    /// A piece with no byte yet.
    pub fn new() -> Self
        ensures { result ≡ [] }
    {
        Piece {
            bytes: [0; ROOM],
            len: 0,
        }
    }

    // How many bytes wait.
    fn len(&self) -> usize
        ensures len { result ≡ length self.now }
        ensures room { length self.now ≤ 4096 }
    {
        self.len
    }

    /// Puts one byte at the end.
    pub fn push(&mut self, byte: u8)
        requires { length self.old < 4096 }
        ensures { self.new ≡ self.old ++ byte ∷ [] }
    {
        self.bytes[self.len] = byte;
        self.len += 1;
    }

    /// Puts bytes at the end.
    pub fn push_all(&mut self, bytes: &[u8])
        requires { length self.old + length bytes.now ≤ 4096 }
        ensures { self.new ≡ self.old ++ bytes.now }
    {
        let to = self.len + bytes.len();
        self.bytes[self.len..to].copy_from_slice(bytes);
        self.len = to;
    }

    /// Drops all that waits.
    pub fn clear(&mut self)
        ensures { self.new ≡ [] }
    {
        self.len = 0;
    }

    /// The bytes that wait.
    pub fn bytes(&self) -> &[u8]
        ensures { result.now ≡ self.now }
    {
        &self.bytes[..self.len]
    }
}

// Puts the digits of a number at the end.
#[tactic(auto, using(crate::proofs::Decimals::length_digit, crate::proofs::Decimals::length_step, crate::proofs::Decimals::decimal_grows, std::proofs::lemmas::Fmt::decimal_digit))]
fn push_digits(piece: &mut Piece, value: u64)
    requires { length piece.old + length (decimal value) ≤ 4096 }
    ensures { piece.new ≡ piece.old ++ decimal value }
{
    if value < 10 {
        piece.push(48 + value as u8);
        return;
    }
    push_digits(piece, value / 10);
    piece.push(48 + (value % 10) as u8);
}

/// Puts the decimal of a number at the end. It has at most 20 bytes.
#[tactic(auto, using(crate::proofs::Decimals::decimal_short))]
pub fn push_decimal(piece: &mut Piece, value: u64)
    requires { length piece.old + 20 ≤ 4096 }
    ensures text { piece.new ≡ piece.old ++ decimal value }
    ensures short { length (decimal value) ≤ 20 }
{
    push_digits(piece, value);
}

/// Gives all that waits to the sink. After a fault the sink took a prefix of it, and the piece is of no more use.
pub fn flush<O: Sink>(sink: &mut O, piece: &mut Piece) -> Result<(), WriteFault>
    ensures all { OnOk result (Adds O.took sink.old sink.new piece.old) }
    ensures empty { OnOk result (piece.new ≡ []) }
    ensures prefix { OnErr result (AddsPrefix O.took sink.old sink.new piece.old) }
    ensures cause { HasCause (O.faults sink.old) (O.faults sink.new) result }
{
    put_all(sink, piece.bytes())?;
    piece.clear();
    Ok(())
}

/// Makes room for so many bytes in the piece: where it has too little, all that waits goes to the sink.
pub fn make_room<O: Sink>(sink: &mut O, piece: &mut Piece, room: usize) -> Result<(), WriteFault>
    requires { room ≤ 4096 }
    ensures sends { OnOk result (Sends O.took sink.old sink.new piece.old piece.new []) }
    ensures room { OnOk result (length piece.new + room ≤ 4096) }
    ensures prefix { OnErr result (AddsPrefix O.took sink.old sink.new piece.old) }
    ensures cause { HasCause (O.faults sink.old) (O.faults sink.new) result }
{
    if piece.len() + room <= ROOM {
        return Ok(());
    }
    flush(sink, piece)
}
