//! The words after a program's name.

ghost use Rattle.std.specs.Prelude.{◌≤◌, IfOk};

use crate::fault::Fault;
use far_io::parse_decimal;
use std::env::{self, Env};

/// The words after a program's name.
pub struct Words {
    words: Vec<String>,
}

impl Drop for Words {
    fn drop(self) {
        // By hand, since a derived drop is proved anew in each program.
        let Words { words: _ } = self;
    }
}

impl Words {
    /// The words that the program was given.
    pub fn new<R: Env + AllocGlobal>(rt: &R) -> Result<Words, Fault> {
        let Ok(args) = env::args(rt) else {
            return Err(Fault::Words);
        };
        let mut words = Vec::new(rt.alloc());
        for word in args.skip(1) {
            words.push(word).or(Err(Fault::NoMemory))?;
        }
        Ok(Words { words })
    }

    /// The word at `index`, which is empty where there is none.
    pub fn word(&self, index: usize) -> &str {
        match self.words.get(index) {
            Some(word) => word.as_str(),
            None => "",
        }
    }

    /// The word at `index` as a number from `least` to `most`.
    pub fn number(&self, index: usize, least: u64, most: u64) -> Result<u64, Fault>
        ensures least { IfOk result (λ number. least ≤ number) }
        ensures most { IfOk result (λ number. number ≤ most) }
    {
        match parse_decimal(self.word(index).as_bytes()) {
            Some(number) if least <= number && number <= most => Ok(number),
            _ => Err(Fault::Words),
        }
    }
}
