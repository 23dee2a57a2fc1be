//! What the drawn lines do.

ghost use Rattle.std.specs.Prelude.{◌≡◌};
ghost use Rattle.far_drill.specs.Script.{act_of};

/// What a drawn line does.
#[derive(Clone, Copy, Debug, PartialEq, Eq)]
pub enum Act {
    Put,
    Get,
    Remove,
    Push,
    Pop,
    Append,
    Read,
    Report,
    Quantum,
    Balance,
    Now,
}

/// The act of a drawn number.
pub fn act_for(drawn: u64) -> Act
    ensures { result ≡ act_of drawn }
{
    match drawn / 4 % 16 {
        0..=4 => Act::Put,
        5 | 6 => Act::Get,
        7 => Act::Remove,
        8 => Act::Push,
        9 => Act::Pop,
        10 => Act::Append,
        11 => Act::Read,
        12 => Act::Report,
        13 => Act::Quantum,
        14 => Act::Balance,
        _ => Act::Now,
    }
}
