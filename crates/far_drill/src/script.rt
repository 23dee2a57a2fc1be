//! The lines of the script, each put into an empty piece with its line end.

ghost use Rattle.std.specs.Prelude.{◌≡◌, ◌+◌, ◌<◌, ◌≤◌, [], ◌++◌, length, codes};
ghost use Rattle.far_drill.specs.Script.{ended, first_name, first_line, of_user, key_of, drawn_line, stepped, text_of};
ghost use Rattle.far_drill.specs.Source.{IsPlace, lines_left};

use crate::act::{Act, act_for};
use far_io::{Piece, push_decimal};

/// How many lines stand before those that are drawn.
const FIRST_LINES: u64 = 12;

// The generator's next state.
fn step(state: u64) -> u64
    ensures { result ≡ stepped state }
{
    state
        .wrapping_mul(6_364_136_223_846_793_005)
        .wrapping_add(1_442_695_040_888_963_407)
}

// What the line at this place, from 0, makes for its user.
fn name_at(place: u64) -> &'static [u8]
    ensures text { result.now ≡ first_name place }
    ensures short { length result.now ≤ 16 }
{
    match place % 3 {
        0 => b" t table 1000000",
        1 => b" q queue 1000000",
        _ => b" f file 1000000",
    }
}

// Puts the line at this place, from 0, of those that make what there is.
#[tactic(auto, unfolding(crate::specs::Script::first_line))]
fn push_first(piece: &mut Piece, place: u64)
    requires { piece.old ≡ [] }
    ensures { piece.new ≡ ended (first_line place) }
{
    piece.push_all(b"make ");
    push_decimal(piece, place / 3);
    piece.push_all(name_at(place));
    piece.push(b'\n');
}

// Puts a verb, the user of a drawn number, and what follows it.
fn push_user(piece: &mut Piece, verb: &[u8], drawn: u64, name: &[u8])
    requires empty { piece.old ≡ [] }
    requires short { length verb.now + length name.now ≤ 32 }
    ensures text { piece.new ≡ of_user verb.now drawn name.now }
    ensures short { length piece.new ≤ 52 }
{
    piece.push_all(verb);
    push_decimal(piece, drawn % 4);
    piece.push_all(name);
}

// Puts a verb, and the user and the key of a drawn number.
fn push_key(piece: &mut Piece, verb: &[u8], drawn: u64)
    requires empty { piece.old ≡ [] }
    requires short { length verb.now ≤ 16 }
    ensures text { piece.new ≡ of_user verb.now drawn (codes " t k") ++ key_of drawn }
    ensures short { length piece.new ≤ 72 }
{
    push_user(piece, verb, drawn, b" t k");
    push_decimal(piece, drawn / 64 % 500);
}

// Puts the line that is drawn with this number, from 1, without its line end.
fn push_act(piece: &mut Piece, number: u64, drawn: u64)
    requires { piece.old ≡ [] }
    ensures text { piece.new ≡ drawn_line number drawn }
    ensures short { length piece.new ≤ 93 }
{
    let rest = drawn / 64;
    match act_for(drawn) {
        Act::Put => {
            push_key(piece, b"put ", drawn);
            piece.push(b' ');
            push_decimal(piece, drawn);
        }
        Act::Get => push_key(piece, b"get ", drawn),
        Act::Remove => push_key(piece, b"remove ", drawn),
        Act::Push => {
            push_user(piece, b"push ", drawn, b" q ");
            push_decimal(piece, drawn);
        }
        Act::Pop => push_user(piece, b"pop ", drawn, b" q"),
        Act::Append => {
            push_user(piece, b"append ", drawn, b" f ");
            push_decimal(piece, drawn);
        }
        Act::Read => {
            push_user(piece, b"read ", drawn, b" f ");
            push_decimal(piece, rest % 1000);
            piece.push_all(b" 50");
        }
        Act::Report => {
            push_user(piece, b"report ", drawn, b" ");
            push_decimal(piece, rest % 48);
        }
        Act::Quantum => piece.push_all(b"quantum"),
        Act::Balance => push_user(piece, b"balance ", drawn, b""),
        Act::Now => {
            piece.push_all(b"now ");
            push_decimal(piece, number);
        }
    }
}

/// Where in a script of `size` drawn lines its next line stands: so many first lines and drawn lines came before, and
/// the generator was left in this state.
#[derive(Clone, Copy, Debug, PartialEq, Eq)]
pub struct Place {
    pub first: u64,
    pub drawn: u64,
    pub size: u64,
    pub state: u64,
}

/// Puts the next line into an empty piece, which stays empty where none is left, and goes on.
pub fn push_next(piece: &mut Piece, place: &mut Place)
    requires empty { piece.old ≡ [] }
    requires within { IsPlace place.old }
    ensures text { text_of (lines_left place.old) ≡ piece.new ++ text_of (lines_left place.new) }
    ensures end { piece.new ≡ [] → lines_left place.new ≡ [] }
    ensures within { IsPlace place.new }
{
    if place.first < FIRST_LINES {
        push_first(piece, place.first);
        place.first += 1;
        return;
    }
    if place.drawn < place.size {
        place.drawn += 1;
        place.state = step(place.state);
        push_act(piece, place.drawn, place.state >> 33);
        piece.push(b'\n');
    }
}
