//! What the words after the program's name ask for.

ghost use Rattle.std.specs.Prelude.{◌≡◌, ◌≢◌, ℕ, ◌^◌, ◌<◌, List, IfOk, IfErr, map, string_bytes, decimal};
ghost use Rattle.far_io.specs.Decimals.{value_of};
ghost use Rattle.karma_rule.specs.declared.shape.Shape.{Shape};
ghost use Rattle.far_top.specs.Commands.{IsShapeWords, IsStoreWords, IsWords, IsNoWords, IsShelfCount, shelves_of};

use far_io::parse_decimal;
use karma_rule::{BadShape, Shape};
use run_end::{ShapeLimit, WordsFault};

/// What the words after the program's name ask for.
#[derive(Clone, Copy, Debug, PartialEq, Eq)]
pub enum Command {
    /// A block for each line of demands.
    Plan(Shape),
    /// A judgement of a log of such blocks.
    Audit(Shape),
    /// An outcome, with its moves, for each line of a script.
    Replay(Shape),
}

impl Command {
    /// How many stores it wants: a replay one for each user, and the others none.
    pub fn shelves(self) -> usize
        ensures { result ≡ shelves_of self }
    {
        match self {
            Command::Plan(_) | Command::Audit(_) => 0,
            Command::Replay(shape) => shape.users as usize,
        }
    }
}

/// How many words `plan` and `audit` have, the command's own with them.
const SHAPE_WORDS: u64 = 5;

/// How many words `replay` has.
const STORE_WORDS: u64 = 6;

/// The fault of so many words after the command's own, where `wanted` words in all should be.
fn miscounted(words: &[String], wanted: u64) -> WordsFault {
    WordsFault::WordCount {
        wanted,
        found: (words.len() as u64).saturating_add(1),
    }
}

/// The number that a word spells. `place` is the word's, from 1.
fn read_number(word: &String, place: u64) -> Result<u64, WordsFault>
    ensures value { IfOk result (λ number. number ≡ value_of (string_bytes word.now)) }
    ensures spelled { IfOk result (λ number. string_bytes word.now ≡ decimal number) }
    ensures none { IfErr result (λ fault. (number : ℕ) → number < 2 ^ 64 → string_bytes word.now ≢ decimal number) }
{
    match parse_decimal(word.as_bytes()) {
        Some(number) => Ok(number),
        None => Err(WordsFault::NoDecimal { word: place }),
    }
}

/// The limit that a shape broke.
fn limit_of(bad: BadShape) -> WordsFault {
    let limit = match bad.place {
        1 => ShapeLimit::Users,
        2 => ShapeLimit::Fair,
        3 => ShapeLimit::Floor,
        4 => ShapeLimit::Credits,
        5 => ShapeLimit::Slice,
        _ => ShapeLimit::Room,
    };
    WordsFault::Limit { limit }
}

/// The numbers of a plan: users, fair share, floor and starting credits.
fn read_shape(words: &[String]) -> Result<Shape, WordsFault>
    ensures shape { IfOk result (λ shape. IsShapeWords (map string_bytes words.now) shape) }
    ensures none { IfErr result (λ fault. (shape : Shape) → IsShapeWords (map string_bytes words.now) shape → ⊥) }
{
    if words.len() != 4 {
        return Err(miscounted(words, SHAPE_WORDS));
    }
    let users = read_number(&words[0], 2)?;
    let fair = read_number(&words[1], 3)?;
    let floor = read_number(&words[2], 4)?;
    let credits = read_number(&words[3], 5)?;
    match Shape::plan(users, fair, floor, credits) {
        Ok(shape) => Ok(shape),
        Err(bad) => Err(limit_of(bad)),
    }
}

/// The numbers of a store: those of a plan, and the size of a slice. It has one user.
fn read_store(words: &[String]) -> Result<Shape, WordsFault>
    ensures shape { IfOk result (λ shape. IsStoreWords (map string_bytes words.now) shape) }
    ensures none { IfErr result (λ fault. (shape : Shape) → IsStoreWords (map string_bytes words.now) shape → ⊥) }
{
    if words.len() != 5 {
        return Err(miscounted(words, STORE_WORDS));
    }
    let Some((last, others)) = words.split_last() else {
        return Err(miscounted(words, STORE_WORDS));
    };
    let plan = read_shape(others)?;
    let slice = read_number(last, STORE_WORDS)?;
    if plan.users != 1 {
        return Err(WordsFault::Limit {
            limit: ShapeLimit::OneUser,
        });
    }
    match Shape::store(1, plan.share.fair, plan.share.floor, plan.credits, slice) {
        Ok(shape) => Ok(shape),
        Err(bad) => Err(limit_of(bad)),
    }
}

/// Reads the words after the program's name. An error says which of them is outside the grammar, or which limit their
/// numbers break. `docs/FORMATS.md` has the words.
pub fn read_words(words: &[String]) -> Result<Command, WordsFault>
    ensures command { IfOk result (IsWords (map string_bytes words.now)) }
    ensures none { IfErr result (λ fault. IsNoWords (map string_bytes words.now)) }
{
    let Some((name, others)) = words.split_first() else {
        return Err(WordsFault::NoCommand);
    };
    match name.as_bytes() {
        b"plan" => Ok(Command::Plan(read_shape(others)?)),
        b"audit" => Ok(Command::Audit(read_shape(others)?)),
        b"replay" => Ok(Command::Replay(read_store(others)?)),
        _ => Err(WordsFault::UnknownCommand),
    }
}

/// How many stores a run of these words wants: as many as a good `replay` has users, and else none. It takes no memory.
pub fn shelf_count(words: &[String]) -> usize
    ensures { IsShelfCount (map string_bytes words.now) result }
{
    match read_words(words) {
        Ok(command) => command.shelves(),
        Err(_) => 0,
    }
}
