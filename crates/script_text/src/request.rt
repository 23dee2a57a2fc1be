//! Requests, by the words of their lines.

ghost use Rattle.std.specs.Prelude.{IfSome, IfNone, IfOk};
ghost use Rattle.std.specs.Option.{option_copied};
ghost use Rattle.far_io.specs.Words.{words_after};
ghost use Rattle.script_text.specs.Fields.{IsAsked, IsNotAsked, IsAnswer};

use crate::fields::{last_path, path_and_bytes, path_from_and_len, path_kind_and_span};
use crate::verb::Verb;
use far_asks::Request;
use std::alloc::{AllocError, Global};

/// The request of this verb whose line has these words after that of the user.
fn parse_fields(
    alloc: Global,
    verb: Verb,
    fields: Option<&[u8]>,
) -> Result<Option<Request>, AllocError>
    ensures { IfOk result (λ found. IsAnswer verb (words_after (option_copied fields.entry)) found) }
{
    match verb {
        Verb::Make => match path_kind_and_span(fields) {
            Some((path, kind, span)) => Ok(Some(Request::Make { path, kind, span })),
            None => Ok(None),
        },
        Verb::Read => match path_from_and_len(fields) {
            Some((path, from, len)) => Ok(Some(Request::Read { path, from, len })),
            None => Ok(None),
        },
        Verb::OfBytes(verb) => match path_and_bytes(alloc, fields)? {
            Some((path, bytes)) => Ok(Some(verb.request(path, bytes))),
            None => Ok(None),
        },
        Verb::OfPath(verb) => match last_path(fields) {
            Some(path) => Ok(Some(verb.request(path))),
            None => Ok(None),
        },
    }
}

/// The request whose line begins with this word, and has these words after that of the user.
pub fn parse_request(
    alloc: Global,
    word: &[u8],
    fields: Option<&[u8]>,
) -> Result<Option<Request>, AllocError>
    ensures some { IfOk result (λ found. IfSome found (λ request. IsAsked word.now (words_after (option_copied fields.entry)) request)) }
    ensures none { IfOk result (λ found. IfNone found (IsNotAsked word.now (words_after (option_copied fields.entry)))) }
{
    match Verb::parse(word) {
        Some(verb) => parse_fields(alloc, verb, fields),
        None => Ok(None),
    }
}
