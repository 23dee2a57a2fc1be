//! The roster of the next quantum, and the rows that it makes of the last one's.

ghost use Rattle.std.specs.Prelude.{◌≡◌, ◌*◌, ◌^◌, ◌<◌, ◌≤◌, ◌↔◌, if◌then◌else◌, true, false, Some, None, length, map, All};
ghost use Rattle.std.specs.List.{sum_by};
ghost use Rattle.demand_book.specs.Roster.{seat_of, fair_of_seat, stays, average_or, newcomer_credits, seated, seated_rows};

use crate::seats::{has_seat, row_seat, seat_fair};
use item_list::ItemList;
use karma_rule::{CREDITS_BOUND, MOST_USERS, Row, Share};

/// Who is present at the next quantum, with which share, in the order of their numbers. Who has none is away.
pub(crate) type Roster = ItemList<Option<Share>>;

/// Makes the rows' seats the roster, and sums up their fair shares.
pub(crate) fn take_seats(rows: &[Row], roster: &mut [Option<Share>]) -> u64
    requires users { length rows.now ≡ length roster.old }
    requires together { sum_by fair_of_seat (map seat_of rows.now) < 2 ^ 64 }
    ensures roster { roster.new ≡ map seat_of rows.now }
    ensures promised { result ≡ sum_by fair_of_seat (map seat_of rows.now) }
{
    let mut promised = 0u64;
    for (user, row) in rows.iter().enumerate() {
        let seat = row_seat(row);
        roster[user] = seat;
        promised += seat_fair(seat);
    }
    promised
}

/// Whether the users have the seats that they had at the last quantum.
fn same_seats(rows: &[Row], roster: &[Option<Share>]) -> bool
    requires { length rows.now ≡ length roster.now }
    ensures { result ≡ true ↔ map seat_of rows.now ≡ roster.now }
{
    for (user, row) in rows.iter().enumerate() {
        if !has_seat(row, roster[user]) {
            return false;
        }
    }
    true
}

/// The credits of a user that was present at the last quantum, and is at the next.
fn credits_kept(row: &Row, seat: Option<Share>) -> Option<u64>
    ensures { result ≡ (if stays row.now seat then Some row.now.credits else None) }
{
    if row.present && seat.is_some() {
        Some(row.credits)
    } else {
        None
    }
}

/// The whole part of an average, or the shape's credits where there is nothing to take it of.
fn average(total: u128, count: u64, credits: u64) -> u64
    requires { total ≤ count * CREDITS_BOUND }
    ensures { result ≡ average_or credits total count }
{
    if count == 0 {
        return credits;
    }
    (total / u128::from(count)) as u64
}

/// The credits that a user begins with who was away: the average of those who stay, its whole part, or the shape's
/// where nobody stays.
fn newcomers(rows: &[Row], roster: &[Option<Share>], credits: u64) -> u64
    requires users { length rows.now ≤ MOST_USERS }
    requires seats { length rows.now ≡ length roster.now }
    requires credits { All (λ row. row.credits < CREDITS_BOUND) rows.now }
    ensures { result ≡ newcomer_credits credits rows.now roster.now }
{
    let mut total = 0u128;
    let mut count = 0u64;
    for (user, row) in rows.iter().enumerate() {
        if let Some(kept) = credits_kept(row, roster[user]) {
            total += u128::from(kept);
            count += 1;
        }
    }
    average(total, count, credits)
}

/// The row that a user begins the next quantum with.
fn seat_row(row: Row, seat: Option<Share>, newcomer: u64) -> Row
    ensures { result ≡ seated newcomer row seat }
{
    match seat {
        Some(share) => Row {
            credits: if row.present { row.credits } else { newcomer },
            fair: share.fair,
            floor: share.floor,
            present: true,
            ..row
        },
        None => Row {
            credits: 0,
            fair: 0,
            floor: 0,
            present: false,
            ..row
        },
    }
}

/// Seats the users of the next quantum, and says whether the roster is another one than the last quantum's.
pub(crate) fn seat_rows(rows: &mut [Row], roster: &[Option<Share>], credits: u64) -> bool
    requires users { length rows.old ≤ MOST_USERS }
    requires seats { length rows.old ≡ length roster.now }
    requires credits { All (λ row. row.credits < CREDITS_BOUND) rows.old }
    ensures rows { rows.new ≡ seated_rows credits rows.old roster.now }
    ensures changed { result ≡ false ↔ map seat_of rows.old ≡ roster.now }
{
    let newcomer = newcomers(rows, roster, credits);
    let changed = !same_seats(rows, roster);
    for (user, row) in rows.iter_mut().enumerate() {
        *row = seat_row(*row, roster[user], newcomer);
    }
    changed
}
