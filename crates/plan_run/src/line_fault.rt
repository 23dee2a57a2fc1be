//! What is wrong with a line of numbers, for a person to read. Nothing in a contract depends on it.

use far_io::{parse_decimal, split_word};
use run_end::LineFault;

// How many words a line has.
fn count_words(line: &[u8]) -> u64 {
    let mut count = 1u64;
    for byte in line {
        if *byte == b' ' {
            count = count.saturating_add(1);
        }
    }
    count
}

// What is wrong with a word that should spell a number of at most `limit`, if anything is.
fn word_fault(word: &[u8], number: u64, limit: u64) -> Option<LineFault> {
    match parse_decimal(word) {
        None => Some(LineFault::NoDecimal { word: number }),
        Some(value) if value > limit => Some(LineFault::AboveLimit {
            word: number,
            limit,
        }),
        Some(_) => None,
    }
}

/// What is wrong with a line that should have `wanted` words, of which those from the one numbered `first` on should
/// spell numbers of at most `limit`: the first bad word of these, and else the count of words.
pub(crate) fn numbers_fault(line: &[u8], first: u64, wanted: u64, limit: u64) -> LineFault {
    let found = count_words(line);
    let mut rest = Some(line);
    for number in 1..wanted.min(found).saturating_add(1) {
        let Some(text) = rest else {
            break;
        };
        let (word, others) = split_word(text);
        if number >= first {
            if let Some(fault) = word_fault(word, number, limit) {
                return fault;
            }
        }
        rest = others;
    }
    LineFault::WordCount { wanted, found }
}
