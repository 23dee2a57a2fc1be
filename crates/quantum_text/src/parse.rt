//! One line of a block, parsed into a report.

ghost use Rattle.std.specs.Prelude.{◌≡◌, ℕ, List, length};
ghost use Rattle.std.specs.Bool.{OnTrue, OnFalse};
ghost use Rattle.std.specs.Option.{option_copied};
ghost use Rattle.far_io.specs.Words.{words_after};
ghost use Rattle.quantum_text.specs.LineKind.{limit_of, count_of, numbers_of, KeepsOtherKinds};
ghost use Rattle.quantum_text.specs.Block.{AreDecimals, IsLine, IsNoLine};

use crate::line_kind::LineKind;
use demand_book::Report;
use far_io::{next_number, split_word};

/// Whether the words are so many decimals of at most `limit`.
fn are_numbers(words: Option<&[u8]>, count: usize, limit: u64) -> bool
    ensures numbers { OnTrue result
        ((numbers : List ℕ) × AreDecimals limit count (words_after (option_copied words.entry)) numbers) }
    ensures none { OnFalse result
        ((numbers : List ℕ) → AreDecimals limit count (words_after (option_copied words.entry)) numbers → ⊥) }
{
    let mut rest = words;
    for _index in 0..count {
        match next_number(rest, limit) {
            Some((_, others)) => rest = others,
            None => return false,
        }
    }
    rest.is_none()
}

/// Makes the words the line's numbers.
fn take_numbers(kind: LineKind, words: Option<&[u8]>, report: &mut Report)
    requires { (numbers : List ℕ) × AreDecimals (limit_of kind) (count_of kind (length report.old.rows))
        (words_after (option_copied words)) numbers }
    ensures numbers { AreDecimals (limit_of kind) (count_of kind (length report.old.rows))
        (words_after (option_copied words.entry)) (numbers_of kind report.new) }
    ensures others { KeepsOtherKinds kind report.old report.new }
{
    let mut rest = words;
    for index in 0..kind.count(report) {
        let Some((number, others)) = next_number(rest, kind.limit()) else {
            unreachable!();
        };
        kind.set_number(report, index, number);
        rest = others;
    }
}

/// Reads one line of a block, without its line end, into the report: true where it is a line of this kind for the
/// report's users, whose numbers the report then has. Else the report stays as it was. It takes no memory.
pub fn parse_block_line(kind: LineKind, line: &[u8], report: &mut Report) -> bool
    ensures good { OnTrue result (IsLine kind (length report.old.rows) line.now (numbers_of kind report.new)) }
    ensures others { OnTrue result (KeepsOtherKinds kind report.old report.new) }
    ensures bad { OnFalse result (IsNoLine kind (length report.old.rows) line.now) }
    ensures kept { OnFalse result (report.new ≡ report.old) }
{
    let (word, numbers) = split_word(line);
    if word != kind.word() || !are_numbers(numbers, kind.count(report), kind.limit()) {
        return false;
    }
    take_numbers(kind, numbers, report);
    true
}
