//! The trait of what takes the lines of an input.

ghost use Rattle.std.specs.Prelude.{◌≡◌, ℕ, ◌<◌, ◌≤◌, List, [], length, Ok, None, IfOk, OnErr, OnOk};
ghost use Rattle.far_io.specs.Adds.{Adds, AddsPrefix};
ghost use Rattle.far_io.specs.Faults.{HasCause};
ghost use Rattle.run_end.specs.Why.{end_of};
ghost use Rattle.run_end.specs.declared.why.Why.{Why};
ghost use Rattle.run_end.specs.declared.TheConstants.{MOST_LINE};
ghost use Rattle.line_run.specs.LineRules.{LineRules, ComesOfLine, IsOwnEnd};

use far_io::{Sink, WriteFault};
use run_end::Why;

/// What takes the lines of an input one by one, until a line ends the run or the input ends.
pub trait LineTaker {
    // The rules that it goes by.
    ghost rules: { LineRules Self };

    // What holds of it before each line, and at the run's end.
    ghost holds: { Self → Type 0 };

    // How many more lines it takes at most.
    ghost lines_left: { Self → ℕ };

    // The last text of a run that ends in this state for this reason, at this line.
    ghost last_text: { Self → List ℕ → Why → List ℕ };

    /// Takes a line without its line end, and writes its text; or says why the run ends with it, and writes nothing.
    fn take_line<O: Sink>(&mut self, line: &[u8], sink: &mut O) -> Result<Option<Why>, WriteFault>
        requires holds { holds self.old }
        requires short { length line.now ≤ MOST_LINE }
        ensures comes { ComesOfLine rules O.took (last_text self.new line.now) sink.old sink.new
            self.old self.new line.now result }
        ensures quiet { rules.quiet → sink.new ≡ sink.old }
        ensures holds { IfOk result (λ _. holds self.new) }
        ensures ends { result ≡ Ok None → lines_left self.new < lines_left self.old }
        ensures cause { HasCause (O.faults sink.old) (O.faults sink.new) result };

    /// Says why the run ends at a line of more than `MOST_LINE` bytes.
    fn at_long_line(&self) -> Why
        requires { holds self.now }
        ensures own { IsOwnEnd (end_of result).status }
        ensures stops { (line shown : List ℕ) → MOST_LINE < length line
            → rules.stops self.now line self.now (end_of result) (last_text self.now shown result) };

    /// Says why the run ends at the end of the input.
    fn at_end(&self) -> Why
        requires { holds self.now }
        ensures own { IsOwnEnd (end_of result).status }
        ensures over { (shown : List ℕ) → rules.over self.now (end_of result) (last_text self.now shown result) };

    /// Writes the last text of a run that ended for this reason, at this line.
    fn put_last<O: Sink>(&self, line: &[u8], why: Why, sink: &mut O) -> Result<(), WriteFault>
        requires { holds self.now }
        ensures all { OnOk result (Adds O.took sink.old sink.new (last_text self.now line.now why)) }
        ensures prefix { OnErr result (AddsPrefix O.took sink.old sink.new (last_text self.now line.now why)) }
        ensures cause { HasCause (O.faults sink.old) (O.faults sink.new) result };
}
