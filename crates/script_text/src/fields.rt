//! The fields of a line, word by word.

ghost use Rattle.std.specs.Prelude.{◌≡◌, ◌≢◌, ℕ, ◌^◌, ◌<◌, ◌≤◌, List, [], ◌∷◌, decimal, IsTrue, IfSome, IfNone, IfOk};
ghost use Rattle.std.specs.Option.{option_copied};
ghost use Rattle.far_io.specs.Words.{words_after};
ghost use Rattle.far_io.specs.Escapes.{escaped, AreBytes};
ghost use Rattle.far_words.specs.Paths;
ghost use Rattle.script_text.specs.Asked.{kind_word, is_read};

use crate::verb::is_word;
use far_asks::Kind;
use far_io::{next_number, parse_escaped, split_word};
use far_words::{Blob, Path};
use std::alloc::{AllocError, Global};

/// The path that the first of these words is, and the words after it.
pub fn next_path(words: Option<&[u8]>) -> Option<(Path, Option<&[u8]>)>
    ensures path { IfSome result (λ found. words_after (option_copied words.entry) ≡ found.0 ∷ words_after (option_copied found.1)) }
    ensures grammar { IfSome result (λ found. IsTrue (Paths.is_path found.0)) }
    ensures nothing { IfNone result ((path : List ℕ) → IsTrue (Paths.is_path path) → (others : List (List ℕ)) → words_after (option_copied words.entry) ≢ path ∷ others) }
{
    let (word, others) = split_word(words?);
    match Path::parse(word) {
        Some(path) => Some((path, others)),
        None => None,
    }
}

/// The path that the one word which is left is.
pub fn last_path(words: Option<&[u8]>) -> Option<Path>
    ensures path { IfSome result (λ path. words_after (option_copied words.entry) ≡ path ∷ []) }
    ensures grammar { IfSome result (λ path. IsTrue (Paths.is_path path)) }
    ensures nothing { IfNone result ((path : List ℕ) → IsTrue (Paths.is_path path) → words_after (option_copied words.entry) ≢ path ∷ []) }
{
    let (path, others) = next_path(words)?;
    if others.is_some() {
        return None;
    }
    Some(path)
}

/// The kind whose word is the first of these, and the words after it. No line has the word of a directory or a table.
pub fn next_kind(words: Option<&[u8]>) -> Option<(Kind, Option<&[u8]>)>
    ensures kind { IfSome result (λ found. words_after (option_copied words.entry) ≡ kind_word found.0 ∷ words_after (option_copied found.1)) }
    ensures read { IfSome result (λ found. IsTrue (is_read found.0)) }
    ensures nothing { IfNone result ((kind : Kind) → IsTrue (is_read kind) → (others : List (List ℕ)) → words_after (option_copied words.entry) ≢ kind_word kind ∷ others) }
{
    let (word, others) = split_word(words?);
    if is_word(word, b"file") {
        return Some((Kind::File, others));
    }
    if is_word(word, b"queue") {
        return Some((Kind::Queue, others));
    }
    None
}

/// The number that the one word which is left spells, where it is a decimal of at most `limit`.
pub fn last_number(words: Option<&[u8]>, limit: u64) -> Option<u64>
    ensures number { IfSome result (λ number. words_after (option_copied words.entry) ≡ decimal number ∷ []) }
    ensures within { IfSome result (λ number. number ≤ limit) }
    ensures nothing { IfNone result ((number : ℕ) → number ≤ limit → words_after (option_copied words.entry) ≢ decimal number ∷ []) }
{
    let (number, others) = next_number(words, limit)?;
    if others.is_some() {
        return None;
    }
    Some(number)
}

/// The bytes for which the one word that is left stands.
pub fn last_bytes(alloc: Global, words: Option<&[u8]>) -> Result<Option<Blob>, AllocError>
    ensures bytes { IfOk result (λ found. IfSome found (λ bytes. words_after (option_copied words.entry) ≡ escaped bytes ∷ [])) }
    ensures within { IfOk result (λ found. IfSome found (λ bytes. AreBytes bytes)) }
    ensures nothing { IfOk result (λ found. IfNone found ((bytes : List ℕ) → AreBytes bytes → words_after (option_copied words.entry) ≢ escaped bytes ∷ [])) }
{
    let Some(words) = words else {
        return Ok(None);
    };
    let (word, others) = split_word(words);
    if others.is_some() {
        return Ok(None);
    }
    parse_escaped(alloc, word)
}

/// The path and the bytes for which the two words that are left stand.
pub fn path_and_bytes(
    alloc: Global,
    words: Option<&[u8]>,
) -> Result<Option<(Path, Blob)>, AllocError>
    ensures fields { IfOk result (λ found. IfSome found (λ fields. words_after (option_copied words.entry) ≡ fields.0 ∷ escaped fields.1 ∷ [])) }
    ensures grammar { IfOk result (λ found. IfSome found (λ fields. IsTrue (Paths.is_path fields.0))) }
    ensures within { IfOk result (λ found. IfSome found (λ fields. AreBytes fields.1)) }
    ensures nothing { IfOk result (λ found. IfNone found ((path bytes : List ℕ) → IsTrue (Paths.is_path path) → AreBytes bytes → words_after (option_copied words.entry) ≢ path ∷ escaped bytes ∷ [])) }
{
    let Some((path, others)) = next_path(words) else {
        return Ok(None);
    };
    match last_bytes(alloc, others)? {
        Some(bytes) => Ok(Some((path, bytes))),
        None => Ok(None),
    }
}

/// The path, the kind and the number that the three words which are left spell.
pub fn path_kind_and_span(words: Option<&[u8]>) -> Option<(Path, Kind, u64)>
    ensures fields { IfSome result (λ fields.
        words_after (option_copied words.entry) ≡ fields.0 ∷ kind_word fields.1 ∷ decimal fields.2 ∷ []) }
    ensures grammar { IfSome result (λ fields. IsTrue (Paths.is_path fields.0)) }
    ensures read { IfSome result (λ fields. IsTrue (is_read fields.1)) }
    ensures nothing { IfNone result ((path : List ℕ) (kind : Kind) (span : ℕ)
        → IsTrue (Paths.is_path path) → span < 2 ^ 64 → IsTrue (is_read kind)
        → words_after (option_copied words.entry) ≢ path ∷ kind_word kind ∷ decimal span ∷ []) }
{
    let (path, words) = next_path(words)?;
    let (kind, words) = next_kind(words)?;
    let span = last_number(words, u64::MAX)?;
    Some((path, kind, span))
}

/// The path and the two numbers that the three words which are left spell, the second a `u32`.
pub fn path_from_and_len(words: Option<&[u8]>) -> Option<(Path, u64, u32)>
    ensures fields { IfSome result (λ fields.
        words_after (option_copied words.entry) ≡ fields.0 ∷ decimal fields.1 ∷ decimal fields.2 ∷ []) }
    ensures grammar { IfSome result (λ fields. IsTrue (Paths.is_path fields.0)) }
    ensures nothing { IfNone result ((path : List ℕ) (from len : ℕ)
        → IsTrue (Paths.is_path path) → from < 2 ^ 64 → len < 2 ^ 32
        → words_after (option_copied words.entry) ≢ path ∷ decimal from ∷ decimal len ∷ []) }
{
    let (path, words) = next_path(words)?;
    let (from, words) = next_number(words, u64::MAX)?;
    let len = last_number(words, u32::MAX as u64)?;
    Some((path, from, len as u32))
}
