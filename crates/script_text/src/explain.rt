//! What is wrong with a line of a script, for a person to read. No contract speaks of it: what a line is, `parse_line` says.

use crate::verb::{Verb, is_word};
use far_io::{parse_decimal, split_word};
use far_words::Path;
use run_end::LineFault;

/// What a word of a line has to be.
#[derive(Clone, Copy)]
enum Field {
    /// A decimal of at most so much.
    Number(u64),
    /// A name.
    Path,
    /// The word of a kind.
    Kind,
    /// An escaped text.
    Escape,
}

const USER: Field = Field::Number(u32::MAX as u64);

const NUMBER: Field = Field::Number(u64::MAX);

/// What the words after the first one have to be in the line of a request.
fn fields_of(verb: Verb) -> &'static [Field] {
    match verb {
        Verb::Make => &[USER, Field::Path, Field::Kind, NUMBER],
        Verb::Read => &[USER, Field::Path, NUMBER, USER],
        Verb::OfBytes(_) => &[USER, Field::Path, Field::Escape],
        Verb::OfPath(_) => &[USER, Field::Path],
    }
}

/// What the words after the first one have to be, None where no line begins with this word.
fn fields_after(first: &[u8]) -> Option<&'static [Field]> {
    if is_word(first, b"draw") {
        return Some(&[]);
    }
    if is_word(first, b"grant") {
        return Some(&[USER]);
    }
    let verb = Verb::parse(first)?;
    Some(fields_of(verb))
}

/// How many words a text has.
fn count_words(text: &[u8]) -> u64 {
    let mut count = 1u64;
    for byte in text {
        if *byte == b' ' {
            count = count.saturating_add(1);
        }
    }
    count
}

/// What is wrong with a word, where it isn't what it has to be. An escaped text isn't looked at.
fn fault_of(field: Field, word: &[u8], place: u64) -> Option<LineFault> {
    match field {
        Field::Number(limit) => match parse_decimal(word) {
            None => Some(LineFault::NoDecimal { word: place }),
            Some(number) if number > limit => Some(LineFault::AboveLimit { word: place, limit }),
            Some(_) => None,
        },
        Field::Path => match Path::parse(word) {
            None => Some(LineFault::NoPath { word: place }),
            Some(_) => None,
        },
        Field::Kind => match word {
            b"file" | b"queue" => None,
            _ => Some(LineFault::NoKind { word: place }),
        },
        Field::Escape => None,
    }
}

/// What is wrong with a line that is outside the grammar: its first word, the count of its words, or else the first of them
/// that isn't what it has to be. The escaped text of a line is its last word, so it is at fault where nothing before it is.
pub fn explain_line(line: &[u8]) -> LineFault {
    let (first, mut rest) = split_word(line);
    let Some(fields) = fields_after(first) else {
        return LineFault::UnknownWord;
    };
    let wanted = (fields.len() as u64).saturating_add(1);
    let found = count_words(line);
    if found != wanted {
        return LineFault::WordCount { wanted, found };
    }
    let mut place = 1u64;
    for field in fields {
        let Some(words) = rest else {
            return LineFault::WordCount { wanted, found };
        };
        let (word, others) = split_word(words);
        place = place.saturating_add(1);
        if let Some(fault) = fault_of(*field, word, place) {
            return fault;
        }
        rest = others;
    }
    LineFault::NoEscape { word: place }
}
