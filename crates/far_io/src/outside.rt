//! The traits of what stands outside: where bytes come from, and where they go.

ghost use Rattle.std.specs.Prelude.{◌≡◌, ℕ, List};
ghost use Rattle.std.specs.declared.option.Option.{Option};
ghost use Rattle.std.specs.Io.{ReadsAtMost};
ghost use Rattle.far_io.specs.Faults.{Faults, HasCause};
ghost use Rattle.far_io.specs.Left.{Takes};
ghost use Rattle.far_io.specs.Adds.{Adds, taken, GivesSome};

use std::error::Error;
use std::fmt;

/// A call failed, and the object's count of faults shows it.
#[derive(Clone, Copy, Debug, PartialEq, Eq)]
pub struct Failed;

impl fmt::Display for Failed {
    fn fmt<W: fmt::Write>(&self, f: &mut fmt::Formatter<W>) -> fmt::Result {
        f.write_str("the call failed")
    }
}

impl Error for Failed {}

/// Where bytes come from.
pub trait Source {
    // What is left to take, where the object tells it.
    ghost left: { Self → Option (List ℕ) };

    // The count of faults so far, and the greatest count that it can ever reach, where the object tells that.
    ghost faults: { Self → Faults };

    /// Takes bytes off the input into the front of `out`, and answers how many. Into an `out` that isn't empty it
    /// answers 0 exactly at the end of the input. One that fails leaves what is left as it was.
    fn take(&mut self, out: &mut [u8]) -> Result<usize, Failed>
        ensures bound { ReadsAtMost result out.new }
        ensures bytes { Takes (left self.old) (left self.new) result out.new }
        ensures cause { HasCause (faults self.old) (faults self.new) result };
}

/// Where bytes go.
pub trait Sink {
    // The lists of bytes that it may have taken from one state to another: one for a sink that keeps its bytes, none
    // for one that tells nothing, and each that fits for one that keeps a digest alone.
    ghost took: { Self → Self → List ℕ → Type 0 };

    // The count of faults so far, and the greatest count that it can ever reach, where the object tells that.
    ghost faults: { Self → Faults };

    /// Takes bytes off the front of `bytes`, and answers how many: of a piece that isn't empty at least one. One that
    /// fails took nothing.
    fn give(&mut self, bytes: &[u8]) -> Result<usize, Failed>
        ensures bound { GivesSome result bytes.now }
        ensures bytes { Adds took self.old self.new (taken result bytes.now) }
        ensures cause { HasCause (faults self.old) (faults self.new) result };
}
