//! Items of one type, which contracts see as the list of them.
//!
//! The lists of the service's words are aliases of [`ItemList`]. One is made from a `Vec`, and gives it back, without
//! taking memory.
#![tactic(auto)]

ghost use Rattle.std.specs.Prelude.{◌≡◌, ℕ, ◌-◌, ◌++◌, ◌∷◌, [], length, take, replicate, IfOk, OnErr, OnOk};
ghost use Rattle.std.specs.Borrow.{Lends, Array, sem};
ghost use Rattle.std.specs.Cmp.Lexicographic.{pointwise, lists_per, lists_equiv};
ghost use Rattle.item_list.specs.contracts.ItemList.{the_row};
ghost use Rattle.std.specs.List.{refill};

use std::alloc::{AllocError, AllocFailed, Global};
use std::marker::Model;

/// Items in order.
#[derive(Debug, Drop)]
pub struct ItemList<T> {
    vec: Vec<T>,
}

impl<T> Model for ItemList<T> {
    ghost use Rattle.std.specs.Prelude.{List};
    ghost use Rattle.std.specs.Coded.{coded_list};

    ghost Value = { List T };

    ghost coded = { coded_list T.code };

    ghost view = { λ list. list.vec.items };
}

impl<T> ItemList<T> {
    /// No item. It takes no memory until the first push.
    pub fn new(alloc: Global) -> Self
        ensures { result ≡ [] }
    {
        ItemList {
            vec: Vec::new(alloc),
        }
    }

    /// The items.
    pub fn items(&self) -> &[T]
        ensures { result.now ≡ self.now }
    {
        self.vec.as_slice()
    }

    /// The items, to be changed where they stand.
    pub fn items_mut(&mut self) -> &mut [T]
        ensures* writes_back { sem 𝓛 (Lends (the_row T.row) (Array T.row 0) self.entry result
            (refill (length self.old) self.old)) }
        ensures value { result.now ≡ self.old }
        ensures len { length result.now ≡ length self.old }
    {
        self.vec.as_mut_slice()
    }
}

impl<T: Drop> ItemList<T> {
    /// Adds an item at the end. At an `Err` the items stand as they were, and `item` is dropped.
    pub fn push(&mut self, item: T) -> Result<(), AllocError>
        ensures ok { OnOk result (self.new ≡ self.old ++ item ∷ []) }
        ensures err { OnErr result (self.new ≡ self.old) }
    {
        match self.vec.push(item) {
            Ok(()) => Ok(()),
            Err(AllocFailed { value: _ }) => Err(AllocError),
        }
    }

    /// Takes memory for so many further items, so that adding them takes none one by one. The items stand as they were.
    pub fn reserve(&mut self, additional: usize) -> Result<(), AllocError>
        ensures { self.new ≡ self.old }
    {
        self.vec.reserve(additional)
    }

    /// Takes all items out. The room for them stays.
    pub fn clear(&mut self)
        ensures { self.new ≡ [] }
    {
        self.vec.clear();
    }
}

impl<T: Copy> ItemList<T> {
    /// These items.
    pub fn from_slice(alloc: Global, items: &[T]) -> Result<Self, AllocError>
        ensures { IfOk result (λ list. list ≡ items.now) }
    {
        let vec = Vec::from_slice(alloc, items)?;
        Ok(ItemList { vec })
    }

    /// Adds items at the end. At an `Err` the items stand as they were.
    pub fn extend_from_slice(&mut self, items: &[T]) -> Result<(), AllocError>
        ensures ok { OnOk result (self.new ≡ self.old ++ items.now) }
        ensures err { OnErr result (self.new ≡ self.old) }
    {
        self.vec.extend_from_slice(items)
    }

    /// Makes it so many items: those at the beginning stay, and further ones are `item`. At an `Err` they stand as they were.
    pub fn resize(&mut self, len: usize, item: T) -> Result<(), AllocError>
        ensures ok { OnOk result (self.new ≡ take len (self.old ++ replicate (len - length self.old) item)) }
        ensures len { OnOk result (length self.new ≡ len) }
        ensures err { OnErr result (self.new ≡ self.old) }
    {
        self.vec.resize(len, item)
    }
}

impl<T> From<Vec<T>> for ItemList<T> {
    ghost from_gives = { λ vec list. list ≡ vec.items };

    fn from(vec: Vec<T>) -> Self {
        ItemList { vec }
    }
}

impl<T> From<ItemList<T>> for Vec<T> {
    ghost from_gives = { λ list vec. vec.items ≡ list };

    fn from(list: ItemList<T>) -> Self {
        list.vec
    }
}

impl<T: PartialEq> PartialEq for ItemList<T> {
    ghost eq = { pointwise T.eq };

    ghost laws = { lists_per T.laws };

    fn eq(&self, other: &Self) -> bool {
        self.items() == other.items()
    }
}

impl<T: Eq> Eq for ItemList<T> {
    ghost laws = { lists_equiv T.Eq.laws };
}
