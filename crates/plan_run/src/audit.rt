//! `audit`: quantum blocks, judged by the rule.

ghost use Rattle.std.specs.Prelude.{◌≡◌, ◌≢◌, ◌+◌, ◌-◌, ◌<◌, ◌≤◌, ◌^◌, ◌&&◌, ◌⊎◌, nat_le, List, [], length, map, All, Some, None, true, false, IfOk, IfSome, IfNone, MatchOption};
ghost use Rattle.std.specs.Bool.{OnTrue, OnFalse};
ghost use Rattle.std.specs.Str.{bytes_eq};
ghost use Rattle.karma_rule.specs.declared.limits.TheConstants.{MOST_DEMAND};
ghost use Rattle.karma_rule.specs.Limits.{IsPlan};
ghost use Rattle.demand_book.specs.Roster.{seat_of};
ghost use Rattle.quantum_text.specs.declared.line_kind.LineKind.TheVariants.{Quantum, Demand};
ghost use Rattle.quantum_text.specs.LineKind.{numbers_of, limit_of, is_first};
ghost use Rattle.run_end.specs.declared.TheConstants.{MOST_LINE};
ghost use Rattle.run_end.specs.Status.{code_of};
ghost use Rattle.run_end.specs.Why.{status_of, end_of, EndsWith};
ghost use Rattle.run_end.specs.LastLines.{last_line};
ghost use Rattle.line_run.specs.Runs.{reading};
ghost use Rattle.plan_run.specs.AuditText.{next_kind, may_be_shares, after_demands, audit_state, bad_ending, due_numbers, due_roster, wanted, IsAt, IsMade};
ghost use Rattle.plan_run.specs.Runs.{IsAudited};

use crate::audit_last::{put_not_karma, put_ok};
use crate::line_fault::numbers_fault;
use demand_book::{Book, QUANTA, Report};
use far_io::{LineBuf, Sink, Source, WriteFault, WriteRoom, split_word};
use karma_rule::Shape;
use line_run::{LineTaker, run_lines};
use quantum_text::{LineKind, SHARES_WORD, parse_block_line, parse_shares_line};
use run_end::{DueLine, LineFault, MOST_LINE, Status, Why, put_last_line};
use std::alloc::{AllocError, Global};

// The kind of line that comes after this one.
fn kind_after(kind: LineKind) -> LineKind
    ensures { result ≡ next_kind kind }
{
    match kind {
        LineKind::Quantum => LineKind::Demand,
        LineKind::Demand => LineKind::Slices,
        LineKind::Slices => LineKind::Credits,
        LineKind::Credits => LineKind::Quantum,
    }
}

// Whether the two reports have the same numbers for a line.
fn same_numbers(kind: LineKind, read: &Report, wanted: &Report) -> bool
    requires { length read.now.rows ≡ length wanted.now.rows }
    ensures { result ≡ bytes_eq (numbers_of kind read.now) (numbers_of kind wanted.now) }
{
    for index in 0..kind.count(read) {
        if kind.number(read, index) != kind.number(wanted, index) {
            return false;
        }
    }
    true
}

// Makes the quantum of the demands that were read.
fn take_demands(book: &mut Book, read: &Report, wanted: &mut Report)
    requires rows { length read.now.rows ≡ book.old.shape.users }
    requires wanted { length wanted.old.rows ≡ book.old.shape.users }
    requires demands { All (λ demand. demand ≤ MOST_DEMAND) (numbers_of Demand read.now) }
    requires more { book.old.quanta < QUANTA }
    ensures book { book.new ≡ after_demands book.old (numbers_of Demand read.now) }
    ensures wanted { wanted.new.rows ≡ book.new.rows }
    ensures fits { length wanted.new.rows ≡ book.new.shape.users }
    ensures seats { map seat_of wanted.new.rows ≡ book.new.roster }
{
    for user in 0..book.users() {
        let _counted = book.report(user, read.rows.items()[user as usize].demand);
    }
    let _made = book.tick(wanted);
}

// Whether a block would begin here, and no quantum is left for it.
fn is_spent(book: &Book, kind: LineKind) -> bool
    ensures { result ≡ (is_first kind && nat_le QUANTA book.now.quanta) }
{
    match kind {
        LineKind::Quantum => book.quanta() >= QUANTA,
        LineKind::Demand | LineKind::Slices | LineKind::Credits => false,
    }
}

// Whether a line of shares may stand before the line that is due.
fn shares_may_stand(kind: LineKind, shares_read: bool) -> bool
    ensures { result ≡ may_be_shares kind shares_read }
{
    match kind {
        LineKind::Demand => !shares_read,
        LineKind::Quantum | LineKind::Slices | LineKind::Credits => false,
    }
}

// Reads the line that is due into the report, and says whether it is one of that kind and a quantum is left.
fn read_due(book: &Book, kind: LineKind, line: &[u8], read: &mut Report) -> bool
    requires rows { length read.old.rows ≡ book.now.shape.users }
    requires fits { length line.now ≤ MOST_LINE }
    ensures numbers { MatchOption (due_numbers book.now kind line.now) (result ≡ false)
        (λ numbers. (result ≡ true) × (numbers_of kind read.new ≡ numbers)) }
    ensures within { OnTrue result (All (λ number. number ≤ limit_of kind) (numbers_of kind read.new)) }
    ensures left { OnTrue result (kind ≡ Quantum → book.now.quanta < QUANTA) }
    ensures rows { length read.new.rows ≡ length read.old.rows }
{
    if is_spent(book, kind) {
        return false;
    }
    parse_block_line(kind, line, read)
}

// Whether the line that was read has the numbers that are wanted, which the report then tells.
fn is_wanted(book: &Book, kind: LineKind, read: &Report, report: &mut Report) -> bool
    requires read { length read.now.rows ≡ book.now.shape.users }
    requires rows { length report.old.rows ≡ book.now.shape.users }
    requires compared { kind ≢ Demand }
    requires made { IsMade kind report.old.rows book.now.rows }
    ensures same { result ≡ bytes_eq (numbers_of kind read.now) (wanted kind book.now) }
    ensures numbers { numbers_of kind report.new ≡ wanted kind book.now }
    ensures rows { report.new.rows ≡ report.old.rows }
    ensures quanta { book.now.quanta ≤ QUANTA }
{
    report.quantum = book.quanta();
    same_numbers(kind, read, report)
}

// The line that is due, for a person.
fn due_line(kind: LineKind) -> DueLine {
    match kind {
        LineKind::Quantum => DueLine::Quantum,
        LineKind::Demand => DueLine::Demand,
        LineKind::Slices => DueLine::Slices,
        LineKind::Credits => DueLine::Credits,
    }
}

// What is wrong with a line that isn't one of the kind that is due, for a person.
fn block_fault(kind: LineKind, users: u32, line: &[u8]) -> LineFault {
    let (word, _) = split_word(line);
    if word != kind.word() {
        return LineFault::NotDue {
            due: due_line(kind),
        };
    }
    let numbers = match kind {
        LineKind::Quantum => 1,
        LineKind::Demand | LineKind::Slices | LineKind::Credits => users as u64,
    };
    numbers_fault(line, 2, numbers + 1, kind.limit())
}

/// The book of an audit, the kind of line that is due, whether the block's line of shares was read before it, how many
/// lines were read, and the reports of what was read and of what is wanted.
#[derive(Drop)]
pub struct Audit {
    book: Book,
    kind: LineKind,
    shares_read: bool,
    number: u64,
    read: Report,
    wanted: Report,
}

impl Audit {
    ghost use Rattle.demand_book.specs.Book.{opening_book};
    ghost use Rattle.line_run.specs.Chunks.{chunk_of};
    ghost use Rattle.line_run.specs.LineRules.{IsOwnEnd};
    ghost use Rattle.plan_run.specs.Auditing.{IsAuditing, auditing, audit_rules, audit_last};

    // An audit that opens with the shape's credits.
    fn new(alloc: Global, shape: Shape) -> Result<Self, AllocError>
        requires { IsPlan shape }
        ensures state { IfOk result (λ audit. auditing audit ≡ audit_state (opening_book shape) Quantum false 0) }
        ensures ready { IfOk result IsAuditing }
    {
        Ok(Audit {
            book: Book::new(alloc, shape)?,
            kind: LineKind::Quantum,
            shares_read: false,
            number: 0,
            read: Report::new(alloc, shape.users)?,
            wanted: Report::opening(alloc, shape)?,
        })
    }

    // Goes on to the next line.
    fn go_on(&mut self)
        requires { self.old.number < 2 ^ 32 }
        ensures { self.new ≡ record self.old {
          kind = next_kind self.old.kind;
          shares_read = false;
          number = self.old.number + 1;
        } }
    {
        self.kind = kind_after(self.kind);
        self.shares_read = false;
        self.number += 1;
    }

    // Why the run ends at a line that is none of the kind that is due. After the last quantum any line ends it.
    fn bad_line(&self, fault: LineFault) -> Why
        requires { IsAuditing self.now }
        ensures end { end_of result ≡ (bad_ending self.now.book self.now.kind self.now.number).end }
        ensures text { last_line result ≡ (bad_ending self.now.book self.now.kind self.now.number).text }
        ensures own { (status_of result ≡ Status.BadLine) ⊎ (status_of result ≡ Status.Spent) }
    {
        if is_spent(&self.book, self.kind) {
            return Why::Spent;
        }
        Why::BadLine {
            number: self.number + 1,
            fault,
        }
    }

    // What is wrong with a line that wasn't taken, for a person: one of shares, where one may stand, tells no roster.
    fn fault_of(&self, line: &[u8]) -> LineFault {
        let (word, _) = split_word(line);
        if word == SHARES_WORD && shares_may_stand(self.kind, self.shares_read) {
            return LineFault::NoShares;
        }
        block_fault(self.kind, self.book.users(), line)
    }

    // Takes a line of shares, where one may stand, and says whether this is one. Its roster is then the next quantum's.
    fn takes_shares(&mut self, line: &[u8]) -> bool
        requires auditing { IsAuditing self.old }
        requires fits { length line.now ≤ MOST_LINE }
        ensures takes { OnTrue result (audit_rules.takes self.old (chunk_of line.now []) self.new) }
        ensures none { OnFalse result (due_roster self.old.book self.old.kind self.old.shares_read line.now ≡ None) }
        ensures kept { OnFalse result (self.new ≡ self.old) }
        ensures auditing { OnTrue result (IsAuditing self.new) }
        ensures ends { OnTrue result (self.old.number < self.new.number) }
    {
        if !shares_may_stand(self.kind, self.shares_read) {
            return false;
        }
        if !parse_shares_line(self.book.shape(), line, &mut self.wanted) {
            return false;
        }
        self.book.take_roster(self.wanted.rows.items());
        self.shares_read = true;
        self.number += 1;
        true
    }

    // Takes a line of numbers, or says why the run ends at it.
    fn take_numbers(&mut self, line: &[u8]) -> Option<Why>
        requires auditing { IsAuditing self.old }
        requires fits { length line.now ≤ MOST_LINE }
        requires no_shares { due_roster self.old.book self.old.kind self.old.shares_read line.now ≡ None }
        ensures takes { IfNone result (audit_rules.takes self.old (chunk_of line.now []) self.new) }
        ensures stops { IfSome result (λ why. IsOwnEnd (end_of why).status
            × audit_rules.stops self.old line.now self.new (end_of why) (audit_last self.new line.now why)) }
        ensures auditing { IsAuditing self.new }
        ensures ends { IfNone result (self.old.number < self.new.number) }
    {
        if !read_due(&self.book, self.kind, line, &mut self.read) {
            return Some(self.bad_line(self.fault_of(line)));
        }
        match self.kind {
            LineKind::Demand => {
                take_demands(&mut self.book, &self.read, &mut self.wanted);
                self.go_on();
                None
            }
            _ => {
                if !is_wanted(&self.book, self.kind, &self.read, &mut self.wanted) {
                    return Some(Why::NotKarma {
                        number: self.number + 1,
                    });
                }
                self.go_on();
                None
            }
        }
    }
}

impl LineTaker for Audit {
    ghost use Rattle.plan_run.specs.Auditing.{IsAuditing, audit_rules, audit_last};

    ghost rules = { audit_rules };

    ghost holds = { IsAuditing };

    ghost lines_left = { λ audit. 2 ^ 32 - audit.number };

    ghost last_text = { audit_last };

    fn take_line<O: Sink>(
        &mut self,
        line: &[u8],
        _sink: &mut O,
    ) -> Result<Option<Why>, WriteFault> {
        if self.takes_shares(line) {
            return Ok(None);
        }
        Ok(self.take_numbers(line))
    }

    fn at_long_line(&self) -> Why {
        self.bad_line(LineFault::TooLong {
            limit: MOST_LINE as u64,
        })
    }

    fn at_end(&self) -> Why {
        match self.kind {
            LineKind::Quantum => Why::Done,
            LineKind::Demand | LineKind::Slices | LineKind::Credits => Why::BadLine {
                number: self.number + 1,
                fault: LineFault::Missing {
                    due: due_line(self.kind),
                },
            },
        }
    }

    fn put_last<O: Sink>(&self, line: &[u8], why: Why, sink: &mut O) -> Result<(), WriteFault> {
        match why {
            Why::Done => put_ok(sink, self.book.quanta() as u64),
            Why::NotKarma { number } => put_not_karma(sink, number, self.kind, &self.wanted, line),
            _ => put_last_line(sink, why),
        }
    }
}

/// Judges a log of quantum blocks by the rule: the numbers of its quanta from 0, and the slices and credits that the
/// rule gives for the demands that a block prints, for its roster, and for the credits of the block before. A roster is
/// that of the block's line of shares, or of the block before, and at first that of the shape. A good log gets `ok` and
/// the count of its blocks; its last line end may be missing.
///
/// It answers why it ended: where all is well, at the first line outside the grammar, or missing, with its number,
/// where the source failed, where the sink failed, for want of memory, where a line stands after 2^28 blocks, or at the
/// first line that differs from the one that is wanted, with both. Lines are judged one by one, so whichever comes first
/// in the input is the answer. All memory is taken before the first byte is read, and nothing is written before the
/// end. `docs/FORMATS.md` has the blocks.
pub fn audit_told<S: Source, O: Sink>(
    alloc: Global,
    shape: Shape,
    source: &mut S,
    sink: &mut O,
) -> Why
    requires { IsPlan shape }
    ensures audited { IsAudited (reading S.left S.faults source.old source.new)
        O.took O.faults sink.old sink.new shape (end_of result) }
    ensures unread { status_of result ≡ Status.NoMemory → source.new ≡ source.old }
    ensures unwritten { status_of result ≡ Status.NoMemory → sink.new ≡ sink.old }
{
    let Ok(mut audit) = Audit::new(alloc, shape) else {
        return Why::NoMemory;
    };
    let Ok(mut line) = LineBuf::new(alloc, MOST_LINE) else {
        return Why::NoMemory;
    };
    let Ok(mut room) = WriteRoom::new(alloc) else {
        return Why::NoMemory;
    };
    run_lines(&mut audit, &mut line, &mut room, source, sink)
}

/// The same as [`audit_told`], with the number of the status for an answer.
pub fn run_audit<S: Source, O: Sink>(
    alloc: Global,
    shape: Shape,
    source: &mut S,
    sink: &mut O,
) -> u8
    requires { IsPlan shape }
    ensures audited { EndsWith result (IsAudited (reading S.left S.faults source.old source.new)
        O.took O.faults sink.old sink.new shape) }
    ensures unread { result ≡ code_of Status.NoMemory → source.new ≡ source.old }
    ensures unwritten { result ≡ code_of Status.NoMemory → sink.new ≡ sink.old }
{
    audit_told(alloc, shape, source, sink).status().code()
}
