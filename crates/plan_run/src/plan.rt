//! `plan`: lines of demands to quantum blocks.

ghost use Rattle.std.specs.Prelude.{◌≡◌, ◌≢◌, ◌-◌, ◌+◌, ◌<◌, ◌≤◌, ◌^◌, ◌↔◌, length, map, Ok, Err, Some, None, true, false, IfOk, IsErr, OnErr, OnOk, MatchOption, IfSome};
ghost use Rattle.far_io.specs.Words.{words_of};
ghost use Rattle.demand_book.specs.declared.book.TheConstants.{QUANTA};
ghost use Rattle.demand_book.specs.Roster.{seat_of};
ghost use Rattle.karma_rule.specs.Limits.{IsPlan};
ghost use Rattle.run_end.specs.Why.{status_of, end_of, EndsWith};
ghost use Rattle.run_end.specs.LastLines.{last_line};
ghost use Rattle.run_end.specs.Status.{code_of};
ghost use Rattle.line_run.specs.Runs.{reading};
ghost use Rattle.plan_run.specs.PlanText.{rows_of_words};
ghost use Rattle.plan_run.specs.Runs.{IsPlanned};

use crate::line_fault::numbers_fault;
use demand_book::{Book, QuantaSpent, Report};
use far_io::{LineBuf, Sink, Source, WriteFault, WriteRoom, parse_decimal, split_word};
use karma_rule::{MOST_DEMAND, Shape};
use line_run::{LineTaker, run_lines};
use quantum_text::write_report;
use run_end::{LineFault, MOST_LINE, Status, Why, put_last_line};
use std::alloc::{AllocError, Global};

// Reports what each user demands by the words of a line, and says whether the line is good: whether it has one word
// for each user, and each is a demand.
fn report_words(book: &mut Book, line: &[u8]) -> bool
    ensures shape { book.new.shape ≡ book.old.shape }
    ensures quanta { book.new.quanta ≡ book.old.quanta }
    ensures seats { map seat_of book.new.rows ≡ map seat_of book.old.rows }
    ensures roster { book.new.roster ≡ book.old.roster }
    ensures rows { MatchOption (rows_of_words (words_of line.now) book.old.rows) (result ≡ false)
        (λ rows. (result ≡ true) × (book.new ≡ record book.old { rows = rows })) }
{
    let mut rest = Some(line);
    for user in 0..book.users() {
        let Some(text) = rest else {
            return false;
        };
        let (word, others) = split_word(text);
        let Some(demand) = parse_decimal(word) else {
            return false;
        };
        if book.report(user, demand).is_err() {
            return false;
        }
        rest = others;
    }
    rest.is_none()
}

/// The book of a plan, and the room in which a quantum is told.
#[derive(Drop)]
pub struct Plan {
    book: Book,
    report: Report,
}

impl Plan {
    ghost use Rattle.demand_book.specs.Book.{opening_book, ticked};
    ghost use Rattle.plan_run.specs.Planning.{IsPlanning};

    // A plan that opens with the shape's credits.
    fn new(alloc: Global, shape: Shape) -> Result<Self, AllocError>
        requires { IsPlan shape }
        ensures book { IfOk result (λ plan. plan.book ≡ opening_book shape) }
        ensures holds { IfOk result IsPlanning }
    {
        Ok(Plan {
            book: Book::new(alloc, shape)?,
            report: Report::new(alloc, shape.users)?,
        })
    }

    // Makes the quantum of the demands that stand, and tells it.
    fn tick(&mut self) -> Result<(), QuantaSpent>
        requires { IsPlanning self.old }
        ensures spent { IsErr result ↔ (QUANTA ≤ self.old.book.quanta) }
        ensures kept { OnErr result (self.new ≡ self.old) }
        ensures made { OnOk result (self.new.book ≡ ticked self.old.book) }
        ensures told { OnOk result (self.new.report ≡ record {
          quantum = self.old.book.quanta;
          rows = self.new.book.rows;
          changed = false;
        }) }
        ensures holds { OnOk result (IsPlanning self.new) }
    {
        self.book.tick(&mut self.report)
    }

    // Why the run ends at the next line, which has this fault.
    fn bad_line(&self, fault: LineFault) -> Why
        ensures { result ≡ Why.BadLine (self.now.book.quanta + 1) fault }
    {
        Why::BadLine {
            number: self.book.quanta() as u64 + 1,
            fault,
        }
    }
}

impl LineTaker for Plan {
    ghost use Rattle.plan_run.specs.Planning.{plan_rules, IsPlanning};

    ghost rules = { plan_rules };

    ghost holds = { IsPlanning };

    ghost lines_left = { λ plan. QUANTA - plan.book.quanta };

    ghost last_text = { λ _ _. last_line };

    fn take_line<O: Sink>(&mut self, line: &[u8], sink: &mut O) -> Result<Option<Why>, WriteFault> {
        if !report_words(&mut self.book, line) {
            let users = self.book.users() as u64;
            return Ok(Some(self.bad_line(numbers_fault(line, 1, users, MOST_DEMAND))));
        }
        if self.tick().is_err() {
            return Ok(Some(Why::Spent));
        }
        write_report(&self.report, sink)?;
        Ok(None)
    }

    fn at_long_line(&self) -> Why {
        self.bad_line(LineFault::TooLong {
            limit: MOST_LINE as u64,
        })
    }

    fn at_end(&self) -> Why {
        Why::Done
    }

    fn put_last<O: Sink>(&self, _line: &[u8], why: Why, sink: &mut O) -> Result<(), WriteFault> {
        put_last_line(sink, why)
    }
}

/// Reads lines of demands, one for each quantum, and writes the block of each. It ends at the end of the input, at the
/// first bad line, whose number it writes, or where a good line stands after 2^28 quanta, with a last line `spent`.
///
/// It answers why it ended: at the end of the input, at a bad line, where the source failed, where the sink failed, for
/// want of memory, or where the quanta are spent. All memory is taken before the first byte is read. `docs/FORMATS.md`
/// has the lines and the blocks.
pub fn plan_told<S: Source, O: Sink>(
    alloc: Global,
    shape: Shape,
    source: &mut S,
    sink: &mut O,
) -> Why
    requires { IsPlan shape }
    ensures planned { IsPlanned (reading S.left S.faults source.old source.new)
        O.took O.faults sink.old sink.new shape (end_of result) }
    ensures unread { status_of result ≡ Status.NoMemory → source.new ≡ source.old }
    ensures unwritten { status_of result ≡ Status.NoMemory → sink.new ≡ sink.old }
{
    let Ok(mut plan) = Plan::new(alloc, shape) else {
        return Why::NoMemory;
    };
    let Ok(mut line) = LineBuf::new(alloc, MOST_LINE) else {
        return Why::NoMemory;
    };
    let Ok(mut room) = WriteRoom::new(alloc) else {
        return Why::NoMemory;
    };
    run_lines(&mut plan, &mut line, &mut room, source, sink)
}

/// The same as [`plan_told`], with the number of the status for an answer.
pub fn run_plan<S: Source, O: Sink>(alloc: Global, shape: Shape, source: &mut S, sink: &mut O) -> u8
    requires { IsPlan shape }
    ensures planned { EndsWith result (IsPlanned (reading S.left S.faults source.old source.new)
        O.took O.faults sink.old sink.new shape) }
    ensures unread { result ≡ code_of Status.NoMemory → source.new ≡ source.old }
    ensures unwritten { result ≡ code_of Status.NoMemory → sink.new ≡ sink.old }
{
    plan_told(alloc, shape, source, sink).status().code()
}
