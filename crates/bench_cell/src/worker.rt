//! A number that each call mixes, as the object of a cell and under a lock.

ghost use Rattle.std.specs.Prelude.{◌≡◌};

use turn_cell::Object;

/// The rounds of a call, which take about a microsecond.
const ROUNDS: u32 = 300;

/// A number that each call mixes.
#[derive(Drop)]
pub struct Worker {
    state: u64,
}

// Each round needs the one before it, so a compiler can neither drop nor reorder them.
fn mixed(seed: u64) -> u64 {
    let mut state = seed;
    for _round in 0..ROUNDS {
        state ^= state >> 29;
        state = state.wrapping_mul(6_364_136_223_846_793_005);
        state = state.wrapping_add(1_442_695_040_888_963_407);
    }
    state
}

impl Worker {
    pub fn new() -> Worker
        ensures { result.state ≡ 1 }
    {
        Worker { state: 1 }
    }

    /// Mixes the number, and gives what it then is.
    pub fn work(&mut self) -> u64
        ensures { result ≡ self.new.state }
    {
        self.state = mixed(self.state);
        self.state
    }
}

impl Object for Worker {
    ghost use Rattle.std.specs.Prelude.{true, false};

    type Key = ();

    type Ask = ();

    type Tell = u64;

    type Entry = u64;

    ghost key_of = { λ worker. tt };

    ghost allows = { λ key ask. true };

    ghost moves = { λ ask. false };

    ghost stands = { λ worker h. Unit {0} };

    ghost entry = { λ before ask tell after. tell };

    ghost moving = { λ entry. false };

    ghost answers = { λ key h ask tell. Unit {0} };

    fn key(&self) {}

    fn fits(_key: (), _ask: &()) -> bool {
        true
    }

    fn is_move(_ask: &()) -> bool {
        false
    }

    fn apply(&mut self, _ask: ()) -> u64 {
        self.work()
    }
}
