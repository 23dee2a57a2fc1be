//! Script lines.

ghost use Rattle.std.specs.Prelude.{◌≡◌, ◌∷◌, IfSome, IfNone, IfOk};
ghost use Rattle.std.specs.Option.{option_copied};
ghost use Rattle.far_io.specs.Words.{words_after};
ghost use Rattle.script_text.specs.Lines.{line_text, IsScriptLine, IsLineOf, IsNoAsk, IsNoLineOf, IsNoLine, IsLineReadBack};

use crate::fields::last_number;
use crate::request::parse_request;
use crate::verb::is_word;
use far_asks::Request;
use far_io::{next_number, split_word};
use std::alloc::{AllocError, Global};

/// What one line of a script asks for.
#[derive(PartialEq, Eq, Debug, Drop)]
pub enum ScriptLine {
    /// A user's request.
    Ask { user: u32, request: Request },
    /// The pool's lowest slice, into the hand.
    Draw,
    /// The slice in the hand, to a user.
    Grant { user: u32 },
}

/// A request of a user: the line begins with this word, and has these words after it.
fn parse_asked(
    alloc: Global,
    word: &[u8],
    words: Option<&[u8]>,
) -> Result<Option<ScriptLine>, AllocError>
    ensures some { IfOk result (λ found. IfSome found (λ line. IsLineOf (word.now ∷ words_after (option_copied words.entry)) line)) }
    ensures none { IfOk result (λ found. IfNone found (IsNoAsk (word.now ∷ words_after (option_copied words.entry)))) }
{
    let Some((user, fields)) = next_number(words, u32::MAX as u64) else {
        return Ok(None);
    };
    match parse_request(alloc, word, fields)? {
        Some(request) => Ok(Some(ScriptLine::Ask {
            user: user as u32,
            request,
        })),
        None => Ok(None),
    }
}

/// The line that has these words: this one, and those after it.
fn parse_words(
    alloc: Global,
    word: &[u8],
    words: Option<&[u8]>,
) -> Result<Option<ScriptLine>, AllocError>
    ensures some { IfOk result (λ found. IfSome found (λ line. IsLineOf (word.now ∷ words_after (option_copied words.entry)) line)) }
    ensures none { IfOk result (λ found. IfNone found (IsNoLineOf (word.now ∷ words_after (option_copied words.entry)))) }
{
    if is_word(word, b"draw") {
        return match words {
            Some(_) => Ok(None),
            None => Ok(Some(ScriptLine::Draw)),
        };
    }
    if is_word(word, b"grant") {
        return match last_number(words, u32::MAX as u64) {
            Some(user) => Ok(Some(ScriptLine::Grant { user: user as u32 })),
            None => Ok(None),
        };
    }
    parse_asked(alloc, word, words)
}

/// The line with this text, without a line end. A text outside the grammar gives None.
pub fn parse_line(alloc: Global, text: &[u8]) -> Result<Option<ScriptLine>, AllocError>
    ensures spelled { IfOk result (λ found. IfSome found (λ line. text.now ≡ line_text line)) }
    ensures within { IfOk result (λ found. IfSome found (λ line. IsScriptLine line)) }
    ensures none { IfOk result (λ found. IfNone found (IsNoLine text.now)) }

    // Each line has one spelling, and each spelling is of one line.
    ensures one_spelling { IsLineReadBack text.now result }
{
    let (word, words) = split_word(text);
    parse_words(alloc, word, words)
}
