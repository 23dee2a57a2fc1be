//! The words with which lines begin.

ghost use Rattle.std.specs.Prelude.{◌≡◌, ◌≢◌, ◌↔◌, IsTrue, IfSome, IfNone};

use far_asks::Request;
use far_words::{Blob, Path};

/// Whether two words are the same.
pub fn is_word(left: &[u8], right: &[u8]) -> bool
    ensures { IsTrue result ↔ (left.now ≡ right.now) }
{
    left == right
}

/// What a request does whose line has a path and no further word.
#[derive(Clone, Copy)]
pub enum PathVerb {
    Length,
    Pop,
    Front,
    Count,
    Park,
    Load,
}

impl PathVerb {
    ghost use Rattle.script_text.specs.Asked.{asked_of, AskPath};

    /// The request with this path.
    pub fn request(self, path: Path) -> Request
        ensures { asked_of result ≡ AskPath self path }
    {
        match self {
            PathVerb::Length => Request::Length { path },
            PathVerb::Pop => Request::Pop { path },
            PathVerb::Front => Request::Front { path },
            PathVerb::Count => Request::Count { path },
            PathVerb::Park => Request::Park { path },
            PathVerb::Load => Request::Load { path },
        }
    }
}

/// What a request does whose line has a path and an escaped text.
#[derive(Clone, Copy)]
pub enum BytesVerb {
    Append,
    Push,
}

impl BytesVerb {
    ghost use Rattle.script_text.specs.Asked.{asked_of, AskBytes};

    /// The request with this path and these bytes.
    pub fn request(self, path: Path, bytes: Blob) -> Request
        ensures { asked_of result ≡ AskBytes self path bytes }
    {
        match self {
            BytesVerb::Append => Request::Append { path, bytes },
            BytesVerb::Push => Request::Push { path, item: bytes },
        }
    }
}

/// What a request does, by the word with which its line begins.
#[derive(Clone, Copy)]
pub enum Verb {
    Make,
    Read,
    OfBytes(BytesVerb),
    OfPath(PathVerb),
}

impl Verb {
    ghost use Rattle.script_text.specs.Verbs.{verb_word};

    const ALL: [Verb; 10] = [
        Verb::Make,
        Verb::Read,
        Verb::OfBytes(BytesVerb::Append),
        Verb::OfBytes(BytesVerb::Push),
        Verb::OfPath(PathVerb::Length),
        Verb::OfPath(PathVerb::Pop),
        Verb::OfPath(PathVerb::Front),
        Verb::OfPath(PathVerb::Count),
        Verb::OfPath(PathVerb::Park),
        Verb::OfPath(PathVerb::Load),
    ];

    fn word(self) -> &'static [u8]
        ensures { result.now ≡ verb_word self }
    {
        match self {
            Verb::Make => b"make",
            Verb::Read => b"read",
            Verb::OfBytes(BytesVerb::Append) => b"append",
            Verb::OfBytes(BytesVerb::Push) => b"push",
            Verb::OfPath(PathVerb::Length) => b"length",
            Verb::OfPath(PathVerb::Pop) => b"pop",
            Verb::OfPath(PathVerb::Front) => b"front",
            Verb::OfPath(PathVerb::Count) => b"count",
            Verb::OfPath(PathVerb::Park) => b"park",
            Verb::OfPath(PathVerb::Load) => b"load",
        }
    }

    /// The verb that has this word.
    pub fn parse(word: &[u8]) -> Option<Verb>
        ensures some { IfSome result (λ verb. word.now ≡ verb_word verb) }
        ensures none { IfNone result ((verb : Verb) → word.now ≢ verb_word verb) }
    {
        for verb in Verb::ALL {
            if is_word(word, verb.word()) {
                return Some(verb);
            }
        }
        None
    }
}
