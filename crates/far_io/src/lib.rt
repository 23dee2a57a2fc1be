//! Bytes in and bytes out: the traits of sources and sinks, their forms in memory and over std, lines of input that
//! are the same for every cutting of it, and small texts: decimals, words and escaped texts.
//!
//! A source or a sink counts its faults, and a call over it answers a fault only where that count rose. What a source
//! has left and what a sink took are told by the forms in memory and not by the real ones; clauses on content hold
//! where it is told. The formats are in `docs/FORMATS.md`, the promises in `docs/PROMISES.md`.
#![tactic(auto)]

mod decimal;
mod escape;
mod lines;
mod outside;
mod piece;
mod put;
mod raw;
mod real;
mod sinks;
mod sources;
mod words;
mod write_buf;

pub use decimal::parse_decimal;
pub use escape::{parse_escaped, push_escaped, put_escaped};
pub use lines::{LineBuf, LineEnd, read_line};
pub use outside::{Failed, Sink, Source};
pub use piece::{Piece, flush, make_room, push_decimal};
pub use put::{WriteFault, put_all, put_decimal};
pub use raw::Raw;
pub use real::{ReadSource, WriteSink};
pub use sinks::{MemSink, SureSink};
pub use sources::{MemSource, SureSource};
pub use words::{next_number, split_word};
pub use write_buf::{WriteBuf, WriteRoom};
