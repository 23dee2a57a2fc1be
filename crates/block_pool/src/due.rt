//! Which slices are to change hands after a quantum.
ghost use Rattle.std.specs.Prelude.{◌≡◌, ◌+◌, ◌*◌, ◌≤◌, [], ◌++◌, length, sum, replicate, IfOk, vec_len, vec_capacity};
ghost use Rattle.block_pool.specs.Dues.{due_moves, yields_due, grants_due, no_moves};

use std::alloc::{AllocError, Global};
use std::marker::Model;

/// A slice that is due to change hands.
#[derive(Clone, Copy, PartialEq, Eq, Debug)]
pub enum DueMove {
    /// The user yields one of its slices to the pool.
    Yield { user: u32 },
    /// The user is granted a slice of the pool.
    Grant { user: u32 },
}

/// The moves that are due, in order, in room that is reserved when it is made.
#[derive(Drop)]
pub struct Due {
    slices: u32,
    moves: Vec<DueMove>,
}

impl Model for Due {
    ghost use Rattle.std.specs.Prelude.{◌*◌, ◌≤◌, ◌<◌, ◌^◌, vec_capacity};
    ghost use Rattle.block_pool.specs.Dues.{DueView};

    ghost Value = { DueView };

    ghost view = { λ d. record { slices = d.slices; moves = d.moves.items } };

    ghost invariant = { λ d. 2 * d.slices ≤ vec_capacity d.moves };
}

impl Due {
    /// No moves, and room for twice so many.
    pub fn new(alloc: Global, slices: u32) -> Result<Due, AllocError>
        ensures { IfOk result (λ due. due ≡ no_moves slices) }
    {
        Ok(Due {
            slices,
            moves: Vec::with_capacity(alloc, slices as usize * 2)?,
        })
    }

    /// The moves, in the order in which they are due.
    pub fn items(&self) -> &[DueMove]
        ensures { result.now ≡ self.now.moves }
    {
        self.moves.as_slice()
    }
}

/// Puts so many moves at the end, for which there is room.
fn put(moves: &mut Vec<DueMove>, count: u64, due: DueMove)
    requires { vec_len moves.old + count ≤ vec_capacity moves.old }
    ensures moves { moves.new.items ≡ moves.old.items ++ replicate count due }
    ensures count { vec_len moves.new ≡ vec_len moves.old + count }
    ensures room { vec_capacity moves.new ≡ vec_capacity moves.old }
{
    for _done in 0..count {
        moves.push_reserved(due);
    }
}

/// Puts what each user that holds more slices than it is given has to yield.
fn put_yields(held: &[u32], given: &[u64], moves: &mut Vec<DueMove>)
    requires users { length held.now ≡ length given.now }
    requires few { length held.now ≤ 1024 }
    requires room { vec_len moves.old + sum held.now ≤ vec_capacity moves.old }
    ensures moves { moves.new.items ≡ moves.old.items ++ yields_due held.now given.now }
    ensures most { vec_len moves.new ≤ vec_len moves.old + sum held.now }
    ensures room { vec_capacity moves.new ≡ vec_capacity moves.old }
{
    for (user, slices) in held.iter().enumerate() {
        let more = u64::from(*slices).saturating_sub(given[user]);
        put(moves, more, DueMove::Yield { user: user as u32 });
    }
}

/// Puts what each user that holds fewer slices than it is given has to be granted.
fn put_grants(held: &[u32], given: &[u64], moves: &mut Vec<DueMove>)
    requires users { length held.now ≡ length given.now }
    requires few { length held.now ≤ 1024 }
    requires room { vec_len moves.old + sum given.now ≤ vec_capacity moves.old }
    ensures moves { moves.new.items ≡ moves.old.items ++ grants_due held.now given.now }
    ensures room { vec_capacity moves.new ≡ vec_capacity moves.old }
{
    for (user, slices) in given.iter().enumerate() {
        let more = slices.saturating_sub(u64::from(held[user]));
        put(moves, more, DueMove::Grant { user: user as u32 });
    }
}

/// Which moves are due where each user holds so many slices and is given so many: first the yields of each user that has
/// more, in user order, and then the grants of each that has fewer, in user order. They stand in `out` in place of what was
/// there. It takes no memory.
pub fn plan_moves(held: &[u32], given: &[u64], out: &mut Due)
    requires users { length held.now ≡ length given.now }
    requires few { length held.now ≤ 1024 }
    requires held_room { sum held.now ≤ out.old.slices }
    requires given_room { sum given.now ≤ out.old.slices }
    ensures { out.new ≡ record out.old { moves = due_moves held.now given.now } }
{
    let moves = &mut out.moves;
    moves.clear();
    put_yields(held, given, moves);
    put_grants(held, given, moves);
}
