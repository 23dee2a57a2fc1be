//! The rows that users begin a quantum with.

ghost use Rattle.std.specs.Prelude.{◌≤◌, IfSome};
ghost use Rattle.bench_quantum.specs.declared.rows.TheConstants.{MOST_TIMES};
ghost use Rattle.karma_rule.specs.declared.limits.TheConstants.{MOST_FAIR, MOST_DEMAND};
ghost use Rattle.karma_rule.specs.Quanta.{IsReady, CanMakeQuantum};

use karma_rule::{Row, Share};

/// The most fair shares that a demand goes up to.
pub const MOST_TIMES: u64 = 1024;

/// No user is left with more credits than this, so that a run of any length keeps to the rule's limits.
const KEPT_CREDITS: u64 = 1 << 61;

/// Numbers of one size: the shares, and the credits at the start.
#[derive(Clone, Copy)]
pub struct Size {
    pub share: Share,
    pub credits: u64,
    /// One user in ten is away, and the others have fair shares from 1 to 100.
    pub mixed: bool,
    ghost fair: { share.fair ≤ MOST_FAIR },
    ghost floor: { share.floor ≤ share.fair },
}

pub const SMALL: Size = Size {
    share: Share {
        fair: 100,
        floor: 50,
    },
    credits: 100_000,
    mixed: false,
};

pub const MIXED: Size = Size {
    share: Share {
        fair: 100,
        floor: 50,
    },
    credits: 100_000,
    mixed: true,
};

pub const GREATEST: Size = Size {
    share: Share {
        fair: 1 << 32,
        floor: 1 << 31,
    },
    credits: 1 << 60,
    mixed: false,
};

fn next_seed(seed: u64) -> u64 {
    seed.wrapping_mul(6_364_136_223_846_793_005)
        .wrapping_add(1_442_695_040_888_963_407)
}

// Of eight demands one is for nothing, one for the most, and six are for something between.
fn demand_for(seed: u64, most: u64) -> u64
    requires { most ≤ MOST_DEMAND }
    ensures { result ≤ most }
{
    match seed >> 61 {
        0 => 0,
        1 => most,
        _ => {
            let part = (seed >> 32) % 1_048_576;
            ((most * part + 524_288) / 1_048_576).min(most)
        }
    }
}

// A user's share, or none where it is away.
fn seat_of(size: Size, user: usize) -> Option<Share>
    ensures fair { IfSome result (λ share. share.fair ≤ MOST_FAIR) }
    ensures floor { IfSome result (λ share. share.floor ≤ share.fair) }
{
    if !size.mixed {
        return Some(size.share);
    }
    if user % 10 == 9 {
        return None;
    }
    let fair = (user as u64).wrapping_mul(37) % 100 + 1;
    Some(Share {
        fair,
        floor: fair / 2,
    })
}

// The row that a user begins the next quantum with.
fn next_row(row: Row, seat: Option<Share>, demand: u64) -> Row
    requires demand { demand ≤ MOST_DEMAND }
    requires fair { IfSome seat (λ share. share.fair ≤ MOST_FAIR) }
    requires floor { IfSome seat (λ share. share.floor ≤ share.fair) }
    ensures { IsReady result }
{
    match seat {
        Some(share) => Row {
            demand,
            credits: row.credits.min(KEPT_CREDITS),
            given: row.given,
            fair: share.fair,
            floor: share.floor,
            present: true,
        },
        None => Row {
            demand,
            credits: 0,
            given: row.given,
            fair: 0,
            floor: 0,
            present: false,
        },
    }
}

/// Changes each demand, by numbers that follow from the seed: up to `times` of the user's own fair shares, whoever is
/// away. The answer is the seed to go on with.
pub fn change_demands(rows: &mut [Row], size: Size, times: u32, mut seed: u64) -> u64
    requires { times ≤ MOST_TIMES }
    ensures { CanMakeQuantum rows.new }
{
    for (user, row) in rows.iter_mut().enumerate() {
        seed = next_seed(seed);
        let seat = seat_of(size, user);
        let fair = seat.map_or(size.share.fair, |share| share.fair);
        *row = next_row(*row, seat, demand_for(seed, u64::from(times) * fair));
    }
    seed
}
