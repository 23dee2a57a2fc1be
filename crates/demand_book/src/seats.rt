//! Seats: what a roster says of a user, which is its share, or none where it is away.

ghost use Rattle.std.specs.Prelude.{◌≡◌, ◌↔◌, true};
ghost use Rattle.demand_book.specs.Roster.{seat_of, fair_of_seat};

use karma_rule::{Row, Share};

/// The fair share of a seat: that of who is away is 0.
pub fn seat_fair(seat: Option<Share>) -> u64
    ensures { result ≡ fair_of_seat seat }
{
    match seat {
        Some(share) => share.fair,
        None => 0,
    }
}

/// The seat of a row.
pub fn row_seat(row: &Row) -> Option<Share>
    ensures { result ≡ seat_of row.now }
{
    if !row.present {
        return None;
    }
    Some(Share {
        fair: row.fair,
        floor: row.floor,
    })
}

/// Whether the row has this seat.
pub fn has_seat(row: &Row, seat: Option<Share>) -> bool
    ensures { result ≡ true ↔ seat_of row.now ≡ seat }
{
    match seat {
        Some(share) => row.present && row.fair == share.fair && row.floor == share.floor,
        None => !row.present,
    }
}
