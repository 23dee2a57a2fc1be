//! A till, as an object that a cell may own.
ghost use Rattle.std.specs.Prelude.{◌≡◌, ◌^◌, ◌+◌, ◌≤◌, [], IfSome, IfNone};

use turn_cell::Object;

/// What never changes of a till.
#[derive(Clone, Copy, Drop)]
pub struct TillKey {
    /// What lay in it at its opening.
    pub float: u32,
}

/// What a till is asked.
#[derive(Drop)]
pub enum TillAsk {
    /// Pays in an amount.
    Pay(u32),
    /// Asks what is in the till.
    Count,
    /// Takes all out, which is a move.
    Empty,
}

/// What a till answers.
#[derive(Drop)]
pub enum TillTell {
    /// What is in the till after the payment, or none where it holds no more than it did.
    Paid(Option<u64>),
    /// What is in the till.
    Counted(u64),
    /// What was taken out.
    Emptied(u64),
}

/// What a call adds to the history. No value of it is made.
pub struct TillEntry {
    pub ask: TillAsk,
    pub tell: TillTell,
}

/// A till, with at most 2^64 - 1 in it.
#[derive(Drop)]
pub struct Till {
    /// What lay in it at its opening.
    float: u32,
    /// What is in it.
    cash: u64,
}

impl Till {
    ghost use Rattle.turn_till.specs.Standing.{StandsFor, key_of_till};

    /// A till with this in it.
    pub fn new(float: u32) -> Till
        ensures stands { StandsFor result [] }
        ensures key { (key_of_till result).float ≡ float }
    {
        Till {
            float,
            cash: float as u64,
        }
    }

    /// What is in the till.
    pub fn cash(&self) -> u64
        ensures { result ≡ self.now.cash }
    {
        self.cash
    }

    /// Pays in an amount. None where the till would hold 2^64 or more, and then it stays as it was.
    fn pay(&mut self, amount: u32) -> Option<u64>
        ensures float { self.new.float ≡ self.old.float }
        ensures paid { IfSome result (λ n. (self.new.cash ≡ self.old.cash + amount) × (n ≡ self.new.cash)) }
        ensures full { IfNone result ((self.new.cash ≡ self.old.cash) × (2 ^ 64 ≤ self.old.cash + amount)) }
    {
        let more = self.cash.checked_add(amount as u64)?;
        self.cash = more;
        Some(more)
    }

    /// Takes all out.
    fn empty(&mut self) -> u64
        ensures float { self.new.float ≡ self.old.float }
        ensures emptied { (result ≡ self.old.cash) × (self.new.cash ≡ 0) }
    {
        let taken = self.cash;
        self.cash = 0;
        taken
    }
}

impl Object for Till {
    ghost use Rattle.std.specs.Prelude.{true};
    ghost use Rattle.turn_till.specs.Standing.{StandsFor, key_of_till};
    ghost use Rattle.turn_till.specs.Rules.{Answers, entry_of, takes_out};

    type Key = TillKey;

    type Ask = TillAsk;

    type Tell = TillTell;

    type Entry = TillEntry;

    ghost key_of = { key_of_till };

    ghost allows = { λ key ask. true };

    ghost moves = { takes_out };

    ghost stands = { StandsFor };

    ghost entry = { λ before ask tell after. entry_of ask tell };

    ghost moving = { λ e. takes_out e.ask };

    ghost answers = { λ key h ask tell. Answers ask tell };

    fn key(&self) -> TillKey {
        TillKey { float: self.float }
    }

    fn fits(_key: TillKey, _ask: &TillAsk) -> bool {
        true
    }

    fn is_move(ask: &TillAsk) -> bool {
        match ask {
            TillAsk::Empty => true,
            TillAsk::Pay(_) | TillAsk::Count => false,
        }
    }

    fn apply(&mut self, ask: TillAsk) -> TillTell {
        match ask {
            TillAsk::Pay(amount) => TillTell::Paid(self.pay(amount)),
            TillAsk::Count => TillTell::Counted(self.cash),
            TillAsk::Empty => TillTell::Emptied(self.empty()),
        }
    }
}
