//! The words after the program's name, as the system hands them over.

use run_end::{Why, WordsFault};
use std::alloc::AllocError;
use std::env::{self, Env};
use std::io::ErrorKind;

/// Room for any word: Linux takes none of more bytes.
const MOST_WORD: usize = 131_072;

/// The number of the first word that isn't UTF-8, with 0 for the program's name; 0 too where there is none.
fn bad_word<R: Env + AllocGlobal>(rt: &R) -> Result<u64, AllocError> {
    let mut room = vec![in rt.alloc(); 0u8; MOST_WORD]?;
    for number in 1..usize::MAX {
        let Ok(len) = rt.arg(number, room.as_mut_slice()) else {
            break;
        };
        if str::from_utf8(&room[..len]).is_err() {
            return Ok(number as u64);
        }
    }
    Ok(0)
}

/// The words after the program's name, or why there are none: one of them isn't UTF-8, or no memory was left.
pub fn words_of<R: Env + AllocGlobal>(rt: &R) -> Result<Vec<String>, Why> {
    let args = match env::args(rt) {
        Ok(args) => args,
        Err(error) if error.kind() == ErrorKind::OutOfMemory => return Err(Why::NoMemory),
        Err(_) => {
            let Ok(word) = bad_word(rt) else {
                return Err(Why::NoMemory);
            };
            return Err(Why::BadWords {
                fault: WordsFault::NotUtf8 { word },
            });
        }
    };
    let mut words = Vec::new(rt.alloc());
    for word in args.skip(1) {
        if words.push(word).is_err() {
            return Err(Why::NoMemory);
        }
    }
    Ok(words)
}
