//! The rule's plain body: one loan after the other.

ghost use Rattle.std.specs.Prelude.{◌≡◌, ◌+◌, ◌≤◌, length, map, sum_by, All, true, false};
ghost use Rattle.std.specs.Bool.{OnTrue, OnFalse};
ghost use Rattle.karma_rule.specs.Karma.{first_best, if_present, surplus, opened, next, lendable};
ghost use Rattle.karma_rule.specs.Quanta.{IsReady, CanMakeQuantum, MakesQuantum};
ghost use Rattle.karma_rule.specs.OpenRow.{user_of, quantum_of, closed, IsOpenRow, row_borrows, row_lends, has_more, has_fewer};

use crate::limits::{MOST_FAIR, MOST_USERS};
use crate::row::Row;

/// Makes one quantum: the rows become those that Karma's rule gives, by one loan after the other.
///
/// It takes no memory, and a time that grows with the count of loans.
pub fn plain_quantum(rows: &mut [Row])
    requires users { length rows.old ≤ MOST_USERS }
    requires ready { CanMakeQuantum rows.old }
    ensures { MakesQuantum rows.old rows.new }
{
    let mut shared = open_rows(rows);
    'loans: while make_loan(rows, &mut shared) {}
    close_rows(rows);
}

/// Opens a quantum: each user gains its credits, and is given what it demands up to the floor. The answer is how many
/// slices are shared.
///
/// Until `close_rows`, a row's `given` counts the slices of its floor that are in use, lent ones too.
fn open_rows(rows: &mut [Row]) -> u64
    requires users { length rows.old ≤ MOST_USERS }
    requires ready { CanMakeQuantum rows.old }
    ensures users { map user_of rows.new ≡ map opened rows.old }
    ensures shared { result ≡ sum_by (if_present surplus) rows.old }
    ensures rows_open { All IsOpenRow rows.new }
{
    let mut shared = 0;
    for row in rows.iter_mut() {
        shared += open_row(row);
    }
    shared
}

/// Opens a quantum for one user, and says how many of its slices are shared.
///
/// Who is away has no share and no credits, so that nothing needs to ask who is present.
pub fn open_row(row: &mut Row) -> u64
    requires { IsReady row.old }
    ensures user { user_of row.new ≡ opened row.old }
    ensures shared { result ≡ if_present surplus row.old }
    ensures few { result ≤ MOST_FAIR }
    ensures row_open { IsOpenRow row.new }
{
    let surplus = row.fair - row.floor;
    row.credits += surplus;
    row.given = row.demand.min(row.floor);
    surplus
}

/// Closes a quantum: what a donor lent was not given to it.
pub fn close_rows(rows: &mut [Row])
    ensures { rows.new ≡ map closed rows.old }
{
    for row in rows.iter_mut() {
        row.given = row.given.min(row.demand);
    }
}

/// Makes the rule's next loan, and says whether there was one to make.
fn make_loan(rows: &mut [Row], shared: &mut u64) -> bool
    requires { All IsOpenRow rows.old }
    ensures next { quantum_of rows.new shared.new ≡ next (quantum_of rows.old shared.old) }
    ensures made { OnTrue result
        (lendable (quantum_of rows.old shared.old)
        ≡ lendable (quantum_of rows.new shared.new) + 1) }
    ensures ended { OnFalse result
        (quantum_of rows.new shared.new ≡ quantum_of rows.old shared.old) }
    ensures rows_open { All IsOpenRow rows.new }
{
    let Some(borrower) = next_borrower(rows) else {
        return false;
    };
    if let Some(donor) = next_donor(rows) {
        let row = &mut rows[borrower];
        row.credits -= 1;
        row.given += 1;
        let row = &mut rows[donor];
        row.credits += 1;
        row.given += 1;
        return true;
    }
    if *shared == 0 {
        return false;
    }
    let row = &mut rows[borrower];
    row.credits -= 1;
    row.given += 1;
    *shared -= 1;
    true
}

/// The first of the users with the most credits among those that want more and can pay.
fn next_borrower(rows: &[Row]) -> Option<usize>
    ensures { result ≡ first_best row_borrows has_more rows.now }
{
    let mut richest = None;
    for (i, row) in rows.iter().enumerate() {
        if row.given < row.demand && row.credits > 0 {
            match richest {
                None => richest = Some(i),
                Some(found) => {
                    if rows[found].credits < row.credits {
                        richest = Some(i);
                    }
                }
            }
        }
    }
    richest
}

/// The first of the users with the fewest credits among those with a donated slice left.
fn next_donor(rows: &[Row]) -> Option<usize>
    ensures { result ≡ first_best row_lends has_fewer rows.now }
{
    let mut poorest = None;
    for (i, row) in rows.iter().enumerate() {
        if row.given < row.floor {
            match poorest {
                None => poorest = Some(i),
                Some(found) => {
                    if row.credits < rows[found].credits {
                        poorest = Some(i);
                    }
                }
            }
        }
    }
    poorest
}
