//! Two users that join, leave and report at once.
ghost use Rattle.std.specs.Prelude.{◌≡◌, ◌≢◌, ◌≤◌, ◌+◌, true, [], ◌∷◌, IfOk};
ghost use Rattle.turn_cell.specs.History.{In, asks_by, entries};
ghost use Rattle.turn_cell.specs.Passes.{MakesAsks};
ghost use Rattle.turn_cell.specs.declared.knows.Logged.{Logged};
ghost use Rattle.karma_rule.specs.Limits.{IsPlan};
ghost use Rattle.karma_rule.specs.declared.shape.Shape.{Shape};
ghost use Rattle.demand_book.specs.BookLegal.{StandsFor, fits_book};
ghost use Rattle.demand_book.specs.declared.as_object.BookEntry.{BookEntry};
ghost use Rattle.book_cell.specs.Reports.{book_ask, nth_ask, user_asks};

use demand_book::{Book, BookAsk};
use karma_rule::Shape;
use std::alloc::{AllocError, Global};
use std::sync::Wait;
use std::thread::{Threads, join};
use turn_cell::{CALLS_EACH, Pass, Shown, TurnCell};

/// A book after the reports, and what is shown of them.
#[derive(Drop)]
pub struct Reported {
    pub book: Book,
    pub shown: Shown<Book>,
    /// The number of the second user's pass. The first user's is 0.
    pub second: u32,
    /// The calls that the joined pass had left.
    pub calls_left: u64,
}

/// A user's call with this number: in turn it joins with a share of its own, leaves, and reports the number as its
/// demand.
fn ask_of(user: u32, number: u64) -> BookAsk
    ensures ask { result ≡ nth_ask user number }
    ensures fits { (shape : Shape) → fits_book shape result ≡ true }
{
    match number % 3 {
        0 => BookAsk::Report {
            user,
            demand: number,
        },
        1 => BookAsk::Join {
            user,
            fair: 1,
            floor: 0,
        },
        _ => BookAsk::Leave { user },
    }
}

/// Makes one of a user's calls.
fn ask_once<R: Wait>(rt: &R, cell: &TurnCell<Book>, pass: &mut Pass<Book>, user: u32, number: u64)
    requires cell { pass.old.cell ≡ cell.now }
    requires left { 1 ≤ pass.old.left }
    requires named { In pass.old.number pass.old.names }
    ensures asks { MakesAsks book_ask pass.old (nth_ask user number ∷ []) pass.new }
{
    cell.call(rt, pass, ask_of(user, number));
}

/// Makes the user's calls from 1 up to this one, one after the other.
fn ask_all<R: Wait>(
    rt: &R,
    cell: &TurnCell<Book>,
    mut pass: Pass<Book>,
    user: u32,
    most: u32,
) -> Pass<Book>
    requires cell { pass.cell ≡ cell.now }
    requires left { most ≤ pass.left }
    requires named { In pass.number pass.names }
    ensures asks { MakesAsks book_ask pass (user_asks user most) result }
{
    for before in 0..most {
        ask_once(rt, cell, &mut pass, user, u64::from(before) + 1);
    }
    pass
}

/// Users 0 and 1 each make `calls` calls at once, each through a pass of its own: in turn they join, leave and report.
///
/// Each call stands in the history that is shown, once and in its user's order, and nothing else does; and the book stands for that history. Users that
/// the book doesn't have are refused there. The one error is want of memory.
pub fn report_at_once<R: Threads + Wait + Sync>(
    rt: &R,
    alloc: Global,
    shape: Shape,
    calls: u32,
) -> Result<Reported, AllocError>
    requires { IsPlan shape }
    ensures stands { IfOk result (λ done. StandsFor done.book (entries done.shown)) }
    ensures shape { IfOk result (λ done. done.book.shape ≡ shape) }
    ensures apart { IfOk result (λ done. done.second ≢ 0) }
    ensures first { IfOk result (λ done. asks_by book_ask 0 done.shown ≡ user_asks 0 calls) }
    ensures second { IfOk result (λ done. asks_by book_ask done.second done.shown ≡ user_asks 1 calls) }
    ensures alone { IfOk result (λ done. (l : Logged BookEntry) → In l done.shown → In l.by (0 ∷ done.second ∷ [])) }
    ensures left { IfOk result (λ done. done.calls_left + calls ≡ CALLS_EACH) }
{
    let (cell, first, second) = TurnCell::new_for_two(alloc, Book::new(alloc, shape)?)?;
    let number = second.number();
    let (first, second) = join(
        rt,
        || -> Pass<Book>
            requires cell { first.cell ≡ cell }
            requires left { calls ≤ first.left }
            requires named { In first.number first.names }
            ensures asks { MakesAsks book_ask first (user_asks 0 calls) result }
        { ask_all(rt, &cell, first, 0, calls) },
        || -> Pass<Book>
            requires cell { second.cell ≡ cell }
            requires left { calls ≤ second.left }
            requires named { In second.number second.names }
            ensures asks { MakesAsks book_ask second (user_asks 1 calls) result }
        { ask_all(rt, &cell, second, 1, calls) },
    );
    let last = first.join(second, &cell);
    let calls_left = last.calls_left();
    let (book, shown) = cell.close(last);
    Ok(Reported {
        book,
        shown,
        second: number,
        calls_left,
    })
}
