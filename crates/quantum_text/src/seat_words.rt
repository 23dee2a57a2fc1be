//! A seat's word, parsed.

ghost use Rattle.std.specs.Prelude.{◌≡◌, ◌≢◌, ℕ, ◌<◌, ◌≤◌, List, ◌∷◌, ◌++◌, length, take, slice_index, All, IfSome, IfNone, Some};
ghost use Rattle.std.specs.Option.{option_copied};
ghost use Rattle.std.specs.declared.option.Option.{Option};
ghost use Rattle.far_io.specs.Words.{words_after};
ghost use Rattle.karma_rule.specs.declared.row.Share.{Share as AShare};
ghost use Rattle.quantum_text.specs.Shares.{seat_word, HasNoColon, IsToldShare, IsSeat};

use far_io::{parse_decimal, split_word};
use karma_rule::{MOST_FAIR, Share};

/// The word of a user that is away.
const AWAY: &[u8] = b"-";

/// How many bytes come before the first colon, all where there is none.
fn find_colon(word: &[u8]) -> usize
    ensures within { result ≤ length word.now }
    ensures before { HasNoColon (take result word.now) }
    ensures here { result < length word.now → slice_index word.now result ≡ 58 }
{
    for (i, byte) in word.iter().enumerate() {
        if *byte == b':' {
            return i;
        }
    }
    word.len()
}

/// What stands before the first colon, and what stands after it.
fn split_colon(word: &[u8]) -> Option<(&[u8], &[u8])>
    ensures parts { IfSome result (λ parts. word.now ≡ parts.0.now ++ 58 ∷ parts.1.now) }
    ensures first { IfSome result (λ parts. HasNoColon parts.0.now) }
    ensures none { IfNone result (HasNoColon word.now) }
{
    let end = find_colon(word);
    if end == word.len() {
        return None;
    }
    Some((&word[..end], &word[end + 1..]))
}

/// The share that a word spells.
fn parse_share(word: &[u8]) -> Option<Share>
    ensures spelled { IfSome result (λ share. word.now ≡ seat_word (Some share)) }
    ensures within { IfSome result IsToldShare }
    ensures none { IfNone result ((share : AShare) → IsToldShare share → word.now ≢ seat_word (Some share)) }
{
    let (first, second) = split_colon(word)?;
    let fair = parse_decimal(first)?;
    let floor = parse_decimal(second)?;
    if fair < 1 || fair > MOST_FAIR || floor > fair {
        return None;
    }
    Some(Share { fair, floor })
}

/// The seat that a word spells.
fn parse_seat(word: &[u8]) -> Option<Option<Share>>
    ensures spelled { IfSome result (λ seat. word.now ≡ seat_word seat) }
    ensures within { IfSome result IsSeat }
    ensures none { IfNone result ((seat : Option AShare) → IsSeat seat → word.now ≢ seat_word seat) }
{
    if word == AWAY {
        return Some(None);
    }
    let share = parse_share(word)?;
    Some(Some(share))
}

/// The seat that the first of these words spells, and the words after it.
pub(crate) fn next_seat(words: Option<&[u8]>) -> Option<(Option<Share>, Option<&[u8]>)>
    ensures seat { IfSome result (λ found.
        words_after (option_copied words.entry) ≡ seat_word found.0 ∷ words_after (option_copied found.1)) }
    ensures within { IfSome result (λ found. IsSeat found.0) }
    ensures nothing { IfNone result ((seat : Option AShare) → IsSeat seat → (others : List (List ℕ))
        → words_after (option_copied words.entry) ≢ seat_word seat ∷ others) }
{
    let (word, others) = split_word(words?);
    let seat = parse_seat(word)?;
    Some((seat, others))
}
