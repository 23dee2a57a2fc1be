//! Why a measurement didn't come to its end.

use far_io::WriteFault;
use std::alloc::AllocError;
use std::io::Eprint;
use std::process::ExitCode;

/// Why a measurement didn't come to its end.
#[derive(Clone, Copy, Debug, PartialEq, Eq)]
pub enum Fault {
    /// The words ask for nothing that is measured.
    Words,
    /// No memory was left.
    NoMemory,
    /// The clock failed.
    Clock,
    /// A line wasn't written.
    Output,
    /// What is measured refused a call that it has room for, or answered something else than was put in.
    Refused,
}

impl From<AllocError> for Fault {
    fn from(_: AllocError) -> Self {
        Fault::NoMemory
    }
}

impl From<WriteFault> for Fault {
    fn from(_: WriteFault) -> Self {
        Fault::Output
    }
}

fn reason(fault: Fault) -> &'static str {
    match fault {
        Fault::Words => "the words are",
        Fault::NoMemory => "no memory was left",
        Fault::Clock => "the clock failed",
        Fault::Output => "a line wasn't written",
        Fault::Refused => "what is measured refused a call",
    }
}

/// The exit code of a program whose words are `usage`: 0, or 2 for bad words, and 1 for another fault. Why it isn't 0
/// stands in a line of standard error.
pub fn end_of<R: Eprint>(rt: &R, ended: Result<(), Fault>, usage: &str) -> ExitCode {
    let Err(fault) = ended else {
        return ExitCode::from(0);
    };
    let told = match fault {
        Fault::Words => eprintln!(rt; "{}: {usage}", reason(fault)),
        _ => eprintln!(rt; "{}", reason(fault)),
    };
    match told {
        Ok(()) | Err(_) => {}
    }
    ExitCode::from(if fault == Fault::Words { 2 } else { 1 })
}
