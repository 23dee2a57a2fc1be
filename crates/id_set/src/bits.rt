//! The levels of a set, from the top: a few flags, and below them words of 64 bits each.

ghost use Rattle.std.specs.Prelude.{◌≡◌, ◌<◌, ◌^◌, Bool, List, length, replicate, IfOk, vec_len};
ghost use Rattle.id_set.specs.IdSet.{contains, insert, remove, first};
ghost use Rattle.id_set.specs.Words.{Fills};

use std::alloc::{AllocError, Global};
use std::marker::Model;

/// Numbers below a bound, and whether each is a member.
pub trait Bits: Drop + Sized {
    ghost bits: { Self → List Bool };

    /// Every number below the bound, or none of them. No other call takes memory.
    fn filled(alloc: Global, bound: u32, member: bool) -> Result<Self, AllocError>
        ensures { IfOk result (λ made. bits made ≡ replicate bound member) };

    fn insert(&mut self, id: u32)
        requires { id < length (bits self.old) }
        ensures { bits self.new ≡ insert (bits self.old) id };

    fn remove(&mut self, id: u32)
        requires { id < length (bits self.old) }
        ensures { bits self.new ≡ remove (bits self.old) id };

    /// The lowest member.
    fn first(&self) -> Option<u32>
        ensures { result ≡ first (bits self.now) };
}

/// The top of the levels: so few flags that they are searched one by one.
#[derive(Drop)]
pub struct Flags {
    flags: Vec<bool>,
    ghost few: { vec_len flags < 2 ^ 32 },
}

impl Bits for Flags {
    ghost bits = { λ top. top.flags.items };

    fn filled(alloc: Global, bound: u32, member: bool) -> Result<Self, AllocError> {
        Ok(Flags {
            flags: vec![in alloc; member; bound as usize]?,
        })
    }

    fn insert(&mut self, id: u32) {
        self.flags[id as usize] = true;
    }

    fn remove(&mut self, id: u32) {
        self.flags[id as usize] = false;
    }

    fn first(&self) -> Option<u32> {
        let at = first_set(&self.flags)?;
        Some(at as u32)
    }
}

fn first_set(flags: &[bool]) -> Option<usize>
    ensures { result ≡ first flags.now }
{
    flags.iter().position(|flag| *flag)
}

/// Words of 64 bits, under a level that says which of the words aren't zero.
#[derive(Drop)]
pub struct Level<U: Bits> {
    bound: u32,
    words: Vec<u64>,
    filled: U,
}

impl<U: Bits> Model for Level<U> {
    ghost use Rattle.std.specs.Prelude.{Bool, List};
    ghost use Rattle.id_set.specs.Words.{bits_of, IsLevel};

    ghost Value = { List Bool };

    ghost view = { λ level. bits_of level.bound level.words.items };

    ghost invariant = { λ level. IsLevel level.bound level.words.items (U.bits level.filled) };
}

impl<U: Bits> Level<U> {
    /// Every number below it may be a member.
    pub fn bound(&self) -> u32
        ensures { result ≡ length self.now }
    {
        self.bound
    }

    pub fn contains(&self, id: u32) -> bool
        ensures member { result ≡ contains self.now id }
        ensures limit { length self.now < 2 ^ 32 }
    {
        id < self.bound && self.words[id as usize / 64] >> (id % 64) & 1 == 1
    }
}

impl<U: Bits> Bits for Level<U> {
    ghost bits = { λ level. level };

    fn filled(alloc: Global, bound: u32, member: bool) -> Result<Self, AllocError> {
        let words = filled_words(alloc, bound, member)?;
        let filled = U::filled(alloc, words.len() as u32, member)?;
        Ok(Level {
            bound,
            words,
            filled,
        })
    }

    fn insert(&mut self, id: u32) {
        let at = id / 64;
        let word = self.words[at as usize];
        self.words[at as usize] = word | 1 << (id % 64);
        if word == 0 {
            self.filled.insert(at);
        }
    }

    fn remove(&mut self, id: u32) {
        let at = id / 64;
        let left = self.words[at as usize] & !(1 << (id % 64));
        self.words[at as usize] = left;
        if left == 0 {
            self.filled.remove(at);
        }
    }

    fn first(&self) -> Option<u32> {
        let at = self.filled.first()?;
        let word = self.words[at as usize];
        Some(at * 64 + word.trailing_zeros())
    }
}

/// The words of a set with every number below the bound, or with none of them.
fn filled_words(alloc: Global, bound: u32, member: bool) -> Result<Vec<u64>, AllocError>
    ensures { IfOk result (λ words. Fills bound words.items member) }
{
    let count = bound.div_ceil(64) as usize;
    if !member {
        return vec![in alloc; 0; count];
    }
    let mut words = vec![in alloc; u64::MAX; count]?;
    let places = bound % 64;
    if places != 0 {
        words[count - 1] = (1 << places) - 1;
    }
    Ok(words)
}
