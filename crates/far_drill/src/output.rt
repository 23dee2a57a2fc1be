//! The lines of an output that a summary counts.

ghost use Rattle.std.specs.Prelude.{◌≡◌, ℕ, ◌+◌, ◌≤◌, List, [], ◌∷◌, ◌++◌, length};
ghost use Rattle.std.specs.Str.{bytes_eq};
ghost use Rattle.far_drill.specs.Output.{is_refusal, is_quantum, counted_if};
ghost use Rattle.far_drill.specs.Sink.{Counts};

use far_io::{Piece, split_word};

/// How much of a line is kept: more than the longest word that is looked for.
const KEPT: usize = 16;

// Whether two words are the same.
fn is_word(word: &[u8], other: &[u8]) -> bool
    ensures { result ≡ bytes_eq word.now other.now }
{
    word == other
}

// Whether a line tells the refusal of a script's line.
fn tells_refusal(line: &[u8]) -> bool
    ensures { result ≡ is_refusal line.now }
{
    let (word, _) = split_word(line);
    is_word(word, b"toolong")
        || is_word(word, b"full")
        || is_word(word, b"toomuch")
        || is_word(word, b"absent")
        || is_word(word, b"wrongkind")
        || is_word(word, b"exists")
        || is_word(word, b"exhausted")
        || is_word(word, b"noroom")
        || is_word(word, b"storefault")
        || is_word(word, b"damaged")
        || is_word(word, b"stale")
        || is_word(word, b"absentuser")
        || is_word(word, b"handempty")
        || is_word(word, b"poolempty")
}

// Whether the block of a quantum begins with a line.
fn begins_quantum(line: &[u8]) -> bool
    ensures { result ≡ is_quantum line.now }
{
    let (word, _) = split_word(line);
    is_word(word, b"quantum")
}

// One more, where there is one.
fn counted(count: u64, is_more: bool) -> u64
    ensures { result ≡ counted_if is_more count }
{
    if is_more {
        return count.saturating_add(1);
    }
    count
}

/// How many lines of refusals and how many blocks of quanta were counted, and the first bytes of the line that has no
/// line end yet. The counts stand still at the greatest u64.
#[derive(Drop)]
pub struct Tally {
    pub refused: u64,
    pub quanta: u64,
    pub kept: Piece,
}

impl Tally {
    // Counts the line that ends.
    fn end_line(&mut self)
        requires { length self.old.kept ≤ 16 }
        ensures counts { (bytes : List ℕ) → Counts self.old bytes → Counts self.new (bytes ++ 10 ∷ []) }
        ensures short { length self.new.kept ≤ 16 }
    {
        self.refused = counted(self.refused, tells_refusal(self.kept.bytes()));
        self.quanta = counted(self.quanta, begins_quantum(self.kept.bytes()));
        self.kept.clear();
    }

    // Counts a byte more.
    fn count_byte(&mut self, byte: u8)
        requires { length self.old.kept ≤ 16 }
        ensures counts { (bytes : List ℕ) → Counts self.old bytes → Counts self.new (bytes ++ byte ∷ []) }
        ensures short { length self.new.kept ≤ 16 }
    {
        if byte == b'\n' {
            self.end_line();
        } else if self.kept.bytes().len() < KEPT {
            self.kept.push(byte);
        }
    }

    /// Counts bytes more.
    pub fn count_bytes(&mut self, bytes: &[u8])
        requires { length self.old.kept ≤ 16 }
        ensures counts { (old : List ℕ) → Counts self.old old → Counts self.new (old ++ bytes.now) }
        ensures short { length self.new.kept ≤ 16 }
    {
        for byte in bytes {
            self.count_byte(*byte);
        }
    }
}
