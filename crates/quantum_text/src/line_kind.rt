//! The four kinds of lines in a block, with the numbers that a report has for each.

ghost use Rattle.std.specs.Prelude.{◌≡◌, ◌<◌, ◌≤◌, length, slice_index, slice_set};

use demand_book::Report;
use karma_rule::MOST_DEMAND;

/// One of the four lines of a block. `docs/FORMATS.md`, "Quantum blocks", has their grammar.
#[derive(Clone, Copy, Debug, PartialEq, Eq)]
pub enum LineKind {
    /// The number of the quantum.
    Quantum,
    /// What each user wants.
    Demand,
    /// How many slices each user is given.
    Slices,
    /// The credits of each user after the quantum.
    Credits,
}

impl LineKind {
    ghost use Rattle.quantum_text.specs.LineKind.{word_of, limit_of, is_first, count_of, numbers_of, KeepsOtherKinds};

    /// The lines of a block, in their order.
    pub const ALL: [LineKind; 4] = [
        LineKind::Quantum,
        LineKind::Demand,
        LineKind::Slices,
        LineKind::Credits,
    ];

    /// The word that the line begins with.
    pub fn word(self) -> &'static [u8]
        ensures { result.now ≡ word_of self }
    {
        match self {
            LineKind::Quantum => b"quantum",
            LineKind::Demand => b"demand",
            LineKind::Slices => b"slices",
            LineKind::Credits => b"credits",
        }
    }

    /// The greatest number that may stand on it.
    pub fn limit(self) -> u64
        ensures { result ≡ limit_of self }
    {
        match self {
            LineKind::Quantum => u32::MAX as u64,
            LineKind::Demand => MOST_DEMAND,
            LineKind::Slices => u64::MAX,
            LineKind::Credits => u64::MAX,
        }
    }

    /// Whether a block begins with it.
    pub fn is_first(self) -> bool
        ensures { result ≡ is_first self }
    {
        match self {
            LineKind::Quantum => true,
            LineKind::Demand | LineKind::Slices | LineKind::Credits => false,
        }
    }

    /// How many numbers stand on it.
    pub fn count(self, report: &Report) -> usize
        ensures count { result ≡ count_of self (length report.now.rows) }
        ensures numbers { result ≡ length (numbers_of self report.now) }
    {
        match self {
            LineKind::Quantum => 1,
            _ => report.rows.items().len(),
        }
    }

    /// The number at the place `index` of it.
    pub fn number(self, report: &Report, index: usize) -> u64
        requires { index < length (numbers_of self report.now) }
        ensures { result ≡ slice_index (numbers_of self report.now) index }
    {
        match self {
            LineKind::Quantum => report.quantum as u64,
            LineKind::Demand => report.rows.items()[index].demand,
            LineKind::Slices => report.rows.items()[index].given,
            LineKind::Credits => report.rows.items()[index].credits,
        }
    }

    /// Sets the number at the place `index` of it.
    pub(crate) fn set_number(self, report: &mut Report, index: usize, number: u64)
        requires place { index < length (numbers_of self report.old) }
        requires within { number ≤ limit_of self }
        ensures numbers { numbers_of self report.new ≡ slice_set (numbers_of self report.old) index number }
        ensures others { KeepsOtherKinds self report.old report.new }
    {
        match self {
            LineKind::Quantum => report.quantum = number as u32,
            LineKind::Demand => {
                let rows = report.rows.items_mut();
                rows[index].demand = number;
            }
            LineKind::Slices => {
                let rows = report.rows.items_mut();
                rows[index].given = number;
            }
            LineKind::Credits => {
                let rows = report.rows.items_mut();
                rows[index].credits = number;
            }
        }
    }
}
