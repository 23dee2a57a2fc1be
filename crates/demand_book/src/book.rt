//! The book's rows over its calls: demands that stand, users that join and leave, and one quantum after another.

ghost use Rattle.std.specs.Prelude.{◌≡◌, ◌*◌, ◌<◌, ◌≤◌, ◌↔◌, false, Ok, Err, IfOk, OnOk, OnErr, IsErr, IsNone, IfSome, Some, All, length, map, slice_get};
ghost use Rattle.std.specs.List.{sum_by};
ghost use Rattle.karma_rule.specs.Limits.{IsPlan};
ghost use Rattle.karma_rule.specs.Quanta.{MakesQuantum};
ghost use Rattle.demand_book.specs.Inside.{IsShare};
ghost use Rattle.demand_book.specs.Roster.{seat_of, fair_of_seat};

use crate::report::{Report, first_row};
use crate::roster::{Roster, seat_rows, take_seats};
use crate::rows::Rows;
use crate::seats::seat_fair;
use karma_batch::batch_quantum;
use karma_rule::{MOST_DEMAND, MOST_FAIR, Row, Shape, Share};
use std::alloc::{AllocError, Global};
use std::error::Error;
use std::fmt;
use std::marker::Model;

/// How many quanta a book makes at most.
pub const QUANTA: u32 = 1 << 28;

/// Why a demand wasn't taken.
#[derive(Clone, Copy, Debug, PartialEq, Eq)]
pub enum ReportEnd {
    /// There is no such user. Users are numbered from 0 up to `users`.
    AbsentUser { users: u32 },
    /// No demand above `limit` is taken.
    TooMuch { limit: u64 },
}

impl fmt::Display for ReportEnd {
    fn fmt<W: fmt::Write>(&self, f: &mut fmt::Formatter<W>) -> fmt::Result {
        match self {
            ReportEnd::AbsentUser { users } => write!(f, "there is no such user among {users}"),
            ReportEnd::TooMuch { limit } => write!(f, "the demand is above {limit}"),
        }
    }
}

impl Error for ReportEnd {}

/// Why a user didn't join.
#[derive(Clone, Copy, Debug, PartialEq, Eq)]
pub enum JoinEnd {
    /// There is no such user. Users are numbered from 0 up to `users`.
    AbsentUser { users: u32 },
    /// The others leave no fair share above `limit`.
    TooMuch { limit: u64 },
}

impl fmt::Display for JoinEnd {
    fn fmt<W: fmt::Write>(&self, f: &mut fmt::Formatter<W>) -> fmt::Result {
        match self {
            JoinEnd::AbsentUser { users } => write!(f, "there is no such user among {users}"),
            JoinEnd::TooMuch { limit } => write!(f, "the fair share is above {limit}"),
        }
    }
}

impl Error for JoinEnd {}

/// Why a user didn't leave.
#[derive(Clone, Copy, Debug, PartialEq, Eq)]
pub enum LeaveEnd {
    /// There is no such user. Users are numbered from 0 up to `users`.
    AbsentUser { users: u32 },
}

impl fmt::Display for LeaveEnd {
    fn fmt<W: fmt::Write>(&self, f: &mut fmt::Formatter<W>) -> fmt::Result {
        match self {
            LeaveEnd::AbsentUser { users } => write!(f, "there is no such user among {users}"),
        }
    }
}

impl Error for LeaveEnd {}

/// The book has made all its quanta.
#[derive(Clone, Copy, Debug, PartialEq, Eq)]
pub struct QuantaSpent;

impl fmt::Display for QuantaSpent {
    fn fmt<W: fmt::Write>(&self, f: &mut fmt::Formatter<W>) -> fmt::Result {
        f.write_str("all quanta are made")
    }
}

impl Error for QuantaSpent {}

/// Each user's standing demand and credits, and what the last quantum gave it, with the roster of the next quantum.
///
/// A demand stands until the user's next report. Who joins and who leaves does so from the next quantum on, and at first
/// every user is present with the shape's share. Only `new` takes memory. `docs/RULES.md` has the rules of a quantum and
/// of the roster.
#[derive(Debug, Drop)]
pub struct Book {
    shape: Shape,
    quanta: u32,
    rows: Rows,
    roster: Roster,
    /// The fair shares of the roster together.
    promised: u64,
    /// False where nobody joined or left since the last quantum.
    changes: bool,
}

impl Model for Book {
    ghost use Rattle.demand_book.specs.Book.{BookView};
    ghost use Rattle.demand_book.specs.Inside.{IsBook};

    ghost Value = { BookView };

    ghost view = { λ b. record { shape = b.shape; quanta = b.quanta; rows = b.rows; roster = b.roster } };

    ghost invariant = { λ b. IsBook
        (record { shape = b.shape; quanta = b.quanta; rows = b.rows; roster = b.roster }) b.promised b.changes };
}

impl Book {
    ghost use Rattle.demand_book.specs.Book.{opening_book, reported, joined, left, with_roster, limit_for, seated_book, ticked};

    /// A book of users that are present with the shape's share, demand nothing yet and have the shape's credits.
    #[tactic(auto, using(crate::proofs::RowsOfBook::opens))]
    pub fn new(alloc: Global, shape: Shape) -> Result<Self, AllocError>
        requires { IsPlan shape }
        ensures { IfOk result (λ book. book ≡ opening_book shape) }
    {
        let rows = vec![in alloc; first_row(shape); shape.users as usize]?;
        let roster = vec![in alloc; Some(shape.share); shape.users as usize]?;
        Ok(Book {
            shape,
            quanta: 0,
            rows: Rows::from(rows),
            roster: Roster::from(roster),
            promised: u64::from(shape.users) * shape.share.fair,
            changes: false,
        })
    }

    /// The shape that the book was made for.
    pub fn shape(&self) -> Shape
        ensures { result ≡ self.now.shape }
    {
        self.shape
    }

    /// How many users the book has a row for.
    pub fn users(&self) -> u32
        ensures users { result ≡ self.now.shape.users }
        ensures rows { length self.now.rows ≡ self.now.shape.users }
    {
        self.shape.users
    }

    /// How many quanta were made.
    pub fn quanta(&self) -> u32
        ensures quanta { result ≡ self.now.quanta }
        ensures within { result ≤ QUANTA }
    {
        self.quanta
    }

    /// Makes `demand` the user's demand until its next report, and says how many quanta were made before.
    pub fn report(&mut self, user: u32, demand: u64) -> Result<u32, ReportEnd>
        ensures absent { self.old.shape.users ≤ user → result ≡ Err (ReportEnd.AbsentUser self.old.shape.users) }
        ensures too_much { user < self.old.shape.users → MOST_DEMAND < demand
            → result ≡ Err (ReportEnd.TooMuch MOST_DEMAND) }
        ensures taken { user < self.old.shape.users → demand ≤ MOST_DEMAND → result ≡ Ok self.old.quanta }
        ensures stands { OnOk result (self.new ≡ reported self.old user demand) }
        ensures kept { OnErr result (self.new ≡ self.old) }
    {
        let users = self.shape.users;
        if user >= users {
            return Err(ReportEnd::AbsentUser { users });
        }
        if demand > MOST_DEMAND {
            return Err(ReportEnd::TooMuch { limit: MOST_DEMAND });
        }
        let rows = self.rows.items_mut();
        let row = &mut rows[user as usize];
        row.demand = demand;
        Ok(self.quanta)
    }

    /// Makes the user present with this share from the next quantum on, and says how many quanta were made before.
    ///
    /// A user that is present changes its share, and keeps its credits. All fair shares together are never more than the
    /// shape's.
    pub fn join(&mut self, user: u32, fair: u64, floor: u64) -> Result<u32, JoinEnd>
        requires some { 1 ≤ fair }
        requires fair { fair ≤ MOST_FAIR }
        requires floor { floor ≤ fair }
        ensures absent { self.old.shape.users ≤ user → result ≡ Err (JoinEnd.AbsentUser self.old.shape.users) }
        ensures too_much { user < self.old.shape.users → limit_for self.old user < fair
            → result ≡ Err (JoinEnd.TooMuch (limit_for self.old user)) }
        ensures taken { user < self.old.shape.users → fair ≤ limit_for self.old user → result ≡ Ok self.old.quanta }
        ensures joins { OnOk result (self.new ≡ joined self.old user (record { fair = fair; floor = floor })) }
        ensures kept { OnErr result (self.new ≡ self.old) }
    {
        let users = self.shape.users;
        if user >= users {
            return Err(JoinEnd::AbsentUser { users });
        }
        let seats = self.roster.items_mut();
        let others = self.promised - seat_fair(seats[user as usize]);
        let limit = u64::from(users) * self.shape.share.fair - others;
        if fair > limit {
            return Err(JoinEnd::TooMuch { limit });
        }
        seats[user as usize] = Some(Share { fair, floor });
        self.promised = others + fair;
        self.changes = true;
        Ok(self.quanta)
    }

    /// Makes the user away from the next quantum on, and says how many quanta were made before.
    pub fn leave(&mut self, user: u32) -> Result<u32, LeaveEnd>
        ensures absent { self.old.shape.users ≤ user → result ≡ Err (LeaveEnd.AbsentUser self.old.shape.users) }
        ensures taken { user < self.old.shape.users → result ≡ Ok self.old.quanta }
        ensures leaves { OnOk result (self.new ≡ left self.old user) }
        ensures kept { OnErr result (self.new ≡ self.old) }
    {
        let users = self.shape.users;
        if user >= users {
            return Err(LeaveEnd::AbsentUser { users });
        }
        let seats = self.roster.items_mut();
        self.promised -= seat_fair(seats[user as usize]);
        seats[user as usize] = None;
        self.changes = true;
        Ok(self.quanta)
    }

    /// Makes the users present with these rows' shares from the next quantum on, and away where the row is. There is a row
    /// for each user, and all fair shares together are no more than the shape's.
    pub fn take_roster(&mut self, rows: &[Row])
        requires users { length rows.now ≡ self.old.shape.users }
        requires shares { All (λ seat. IfSome seat IsShare) (map seat_of rows.now) }
        requires together { sum_by fair_of_seat (map seat_of rows.now)
            ≤ self.old.shape.users * self.old.shape.share.fair }
        ensures { self.new ≡ with_roster self.old rows.now }
    {
        self.promised = take_seats(rows, self.roster.items_mut());
        self.changes = true;
    }

    /// The user's standing demand, its credits, and what the last quantum gave it, with its share and presence then:
    /// before the first quantum, the shape's.
    pub fn share(&self, user: u32) -> Option<Row>
        ensures absent { IsNone result ↔ (self.now.shape.users ≤ user) }
        ensures row { IfSome result (λ row. slice_get self.now.rows user ≡ Some row) }
    {
        self.rows.items().get(user as usize).copied()
    }

    /// Seats the users of the roster, and says whether it is another one than that of the last quantum.
    fn seat(&mut self) -> bool
        ensures seated { self.new ≡ seated_book self.old }
        ensures changed { result ≡ false ↔ map seat_of self.old.rows ≡ self.old.roster }
    {
        if !self.changes {
            return false;
        }
        self.changes = false;
        seat_rows(
            self.rows.items_mut(),
            self.roster.items(),
            self.shape.credits,
        )
    }

    /// Makes the next quantum of the standing demands and the roster, and tells it in `out`.
    pub fn tick(&mut self, out: &mut Report) -> Result<(), QuantaSpent>
        requires { length out.old.rows ≡ self.old.shape.users }
        ensures spent { IsErr result ↔ (QUANTA ≤ self.old.quanta) }
        ensures kept { OnErr result (self.new ≡ self.old) }
        ensures untold { OnErr result (out.new ≡ out.old) }
        ensures made { OnOk result (self.new ≡ ticked self.old) }
        ensures told { OnOk result ((out.new.quantum ≡ self.old.quanta) × (out.new.rows ≡ self.new.rows)) }
        ensures changed { OnOk result (out.new.changed ≡ false ↔ map seat_of self.old.rows ≡ self.old.roster) }
        ensures fits { length out.new.rows ≡ self.new.shape.users }
        ensures seats { OnOk result (map seat_of self.new.rows ≡ self.new.roster) }
        // The rows that are told are Karma's, and keep the laws of the rule.
        ensures karma { OnOk result (MakesQuantum (seated_book self.old).rows out.new.rows) }
    {
        if self.quanta == QUANTA {
            return Err(QuantaSpent);
        }
        out.changed = self.seat();
        batch_quantum(self.rows.items_mut());
        out.rows.items_mut().copy_from_slice(self.rows.items());
        out.quantum = self.quanta;
        self.quanta += 1;
        Ok(())
    }
}
