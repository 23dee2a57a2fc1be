//! Words of a line.

ghost use Rattle.std.specs.Prelude.{◌≡◌, ◌≢◌, ℕ, ◌<◌, ◌≤◌, List, ◌∷◌, length, slice_index, take, decimal, IfSome, IfNone};
ghost use Rattle.std.specs.Option.{option_copied};
ghost use Rattle.far_io.specs.Words.{words_of, words_after, HasNoSpace};

use crate::decimal::parse_decimal;

// How many bytes come before the first space, all where there is none.
fn find_space(line: &[u8]) -> usize
    ensures within { result ≤ length line.now }
    ensures before { HasNoSpace (take result line.now) }
    ensures here { result < length line.now → slice_index line.now result ≡ 32 }
{
    for (i, byte) in line.iter().enumerate() {
        if *byte == b' ' {
            return i;
        }
    }
    line.len()
}

/// The first word of a line, and what stands after the one space that ends it, where there is a space. Words are
/// separated by exactly one space: a line that begins or ends with a space, or has two beside each other, has an empty
/// word there, and an empty line has one empty word.
pub fn split_word(line: &[u8]) -> (&[u8], Option<&[u8]>)
    ensures words { words_of line.now ≡ result.0.now ∷ words_after (option_copied result.1) }
    ensures word { HasNoSpace result.0.now }
{
    let end = find_space(line);
    if end == line.len() {
        return (line, None);
    }
    (&line[..end], Some(&line[end + 1..]))
}

/// The number that the first of these words spells, where it is a decimal of at most `limit`, and the words after it.
pub fn next_number(words: Option<&[u8]>, limit: u64) -> Option<(u64, Option<&[u8]>)>
    ensures number { IfSome result (λ found.
        words_after (option_copied words.entry) ≡ decimal found.0 ∷ words_after (option_copied found.1)) }
    ensures within { IfSome result (λ found. found.0 ≤ limit) }
    ensures nothing { IfNone result ((number : ℕ) → number ≤ limit → (others : List (List ℕ))
        → words_after (option_copied words.entry) ≢ decimal number ∷ others) }
{
    let (word, others) = split_word(words?);
    let number = parse_decimal(word)?;
    if number > limit {
        return None;
    }
    Some((number, others))
}
