//! The program: help and version, or real objects, one top call, its status as the exit code and why on standard error.
#![tactic(auto)]

mod help;
mod words;

ghost use Rattle.std.specs.Prelude.{◌≡◌, length, IfOk};

use far_io::{ReadSource, Sink, WriteFault, WriteSink, put_all};
use far_top::{RanTold, run_told, shelf_count};
use help::{Question, parts, question_of};
use run_end::{Status, Why, put_bad_words};
use shelf_link::ShelfMem;
use std::alloc::{AllocError, Global};
use std::io::Error;
use std::process::ExitCode;
use words::words_of;

/// Writes what was asked for.
fn put_parts<O: Sink>(question: Question, sink: &mut O) -> Result<(), WriteFault> {
    for part in parts(question) {
        put_all(sink, part.as_bytes())?;
    }
    Ok(())
}

/// Says in a line why the program ends, with the system's error where there is one. Where standard error takes no line,
/// nobody is left to be told.
fn explain(rt: &HostRuntime, why: Why, error: Option<&Error>) {
    let told = match error {
        Some(error) => eprintln!(rt; "far_memory: {why}: {error}"),
        None => eprintln!(rt; "far_memory: {why}"),
    };
    match told {
        Ok(()) | Err(_) => {}
    }
}

/// Answers what the words ask to be told. A write that fails is told as any other.
fn tell(rt: &HostRuntime, question: Question) -> Status {
    let mut sink = WriteSink::new(rt.stdout());
    match put_parts(question, &mut sink) {
        Ok(()) => Status::Done,
        Err(WriteFault) => {
            explain(rt, Why::WriteFault, sink.last_error());
            Status::WriteFault
        }
    }
}

/// So many stores in memory.
fn memory_shelves(alloc: Global, count: usize) -> Result<Vec<ShelfMem>, AllocError>
    ensures { IfOk result (λ shelves. length shelves.items ≡ count) }
{
    let mut shelves = Vec::new(alloc);
    for _ in 0..count {
        shelves.push(ShelfMem::new(alloc, Vec::new(alloc)))?;
    }
    Ok(shelves)
}

/// Does what the words ask for, over stores in memory, and explains a status that isn't 0.
fn run(rt: &HostRuntime, words: &[String]) -> Status {
    let mut source = ReadSource::new(rt.stdin());
    let mut sink = WriteSink::new(rt.stdout());
    let Ok(shelves) = memory_shelves(rt.alloc(), shelf_count(words)) else {
        explain(rt, Why::NoMemory, None);
        return Status::NoMemory;
    };
    let RanTold { why, tenants: _ } = run_told(rt.alloc(), words, shelves, &mut source, &mut sink);
    match why {
        Why::Done => {}
        Why::ReadFault => explain(rt, why, source.last_error()),
        _ => explain(rt, why, sink.last_error()),
    }
    if words.is_empty() {
        put_help(rt);
    }
    why.status()
}

/// Writes help to standard error, as far as it goes.
fn put_help(rt: &HostRuntime) {
    let mut sink = WriteSink::new(rt.stderr());
    match put_parts(Question::Help, &mut sink) {
        Ok(()) | Err(WriteFault) => {}
    }
}

/// Ends a program that got no words: bad ones with their last line, and with why.
fn refuse(rt: &HostRuntime, why: Why) -> Status {
    let mut sink = WriteSink::new(rt.stdout());
    let told = match why {
        Why::BadWords { fault: _ } => put_bad_words(&mut sink),
        _ => Ok(()),
    };
    let why = match told {
        Ok(()) => why,
        Err(WriteFault) => Why::WriteFault,
    };
    explain(rt, why, sink.last_error());
    why.status()
}

fn main(rt: HostRuntime) -> ExitCode {
    let status = match words_of(&rt) {
        Ok(words) => match question_of(words.as_slice()) {
            Some(question) => tell(&rt, question),
            None => run(&rt, words.as_slice()),
        },
        Err(why) => refuse(&rt, why),
    };
    ExitCode::from(status.code())
}
