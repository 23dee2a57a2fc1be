//! The edge to a folder of the system: a shelf whose blocks are files.
//!
//! It tells nothing. What the files keep is trusted to the system.

ghost use Rattle.std.specs.Prelude.{◌≡◌, ◌<◌, ◌≤◌, ◌↔◌, length, IfOk, IsSome, OnOk, Some, None};
ghost use Rattle.far_io.specs.Faults.{Follows, Rose, HasCause, counted, one_more};
ghost use Rattle.shelf_link.specs.Told.{nothing_told, StandsThere, IsSameKind, KeepsOthers, IsWithin, Gives};

use crate::shelf::{Got, Shelf};
use far_io::{Failed, ReadSource, Source, WriteFault, WriteSink, put_all};
use std::alloc::{AllocError, Global};
use std::fs;
use std::fs::OpenFile;
use std::io::{Error, ErrorKind, Result as IoResult};
use std::marker::Model;
use std::rt::Files;

/// How often a call is made again at most, where it was interrupted.
const FURTHER_TRIES: u8 = 64;

/// A shelf whose blocks are files of one user: in the folder that it is given the folder `u` and the decimal user, and
/// in it the file `b` and the decimal block number.
///
/// The folder is made at a put that doesn't find it. A put writes the file `t` and the number, and then gives it the
/// block's name, so that one that fails leaves what stood there. A call that the system fails counts as a fault, an
/// interrupted one after 64 further tries, and so does want of memory for a name. The count stands still at the
/// greatest u64.
#[derive(Drop)]
pub struct ShelfDir<R: Drop> {
    rt: R,
    alloc: Global,
    folder: String,
    user: u32,
    faults: u64,
    // The last error, once a call failed.
    error: Option<Error>,
}

impl<R: Drop> Model for ShelfDir<R> {
    ghost use Rattle.std.specs.Prelude.{◌<◌, ◌↔◌, IsSome};
    ghost use Rattle.shelf_link.specs.Shelves.{ShelfDirView};

    ghost Value = { ShelfDirView };

    ghost view = { λ s. record { user = s.user; faults = s.faults } };

    ghost invariant = { λ s. IsSome s.error ↔ (0 < s.faults) };
}

// Makes a call, and again where it was interrupted.
fn patiently<T, F: FnMut() -> IoResult<T>>(mut call: F) -> IoResult<T>
    requires { F.IsAlwaysCallable call }
{
    for _ in 0..FURTHER_TRIES {
        match call() {
            Ok(value) => return Ok(value),
            Err(error) => {
                if error.kind() != ErrorKind::Interrupted {
                    return Err(error);
                }
            }
        }
    }
    call()
}

// Reads to the end, or until the buffer is full, and says how many bytes that were.
fn read_full<S: Source>(source: &mut S, out: &mut [u8]) -> Result<usize, Failed>
    ensures { IfOk result (λ count. count ≤ length out.new) }
{
    let mut done = 0;
    while done < out.len() {
        match source.take(&mut out[done..])? {
            0 => break,
            count => done += count,
        }
    }
    Ok(done)
}

impl<R: Files + Drop> ShelfDir<R> {
    /// A shelf of a user's blocks, under this folder. It calls the system at none of them.
    pub fn new(rt: R, alloc: Global, folder: String, user: u32) -> Self
        ensures { result ≡ record { user = user; faults = 0 } }
    {
        ShelfDir {
            rt,
            alloc,
            folder,
            user,
            faults: 0,
            error: None,
        }
    }

    /// The error of the last call that failed.
    pub fn last_error(&self) -> Option<&Error>
        ensures { IsSome result ↔ (0 < self.now.faults) }
    {
        self.error.as_ref()
    }

    /// How many calls failed.
    pub fn faults(&self) -> u64
        ensures { result ≡ self.now.faults }
    {
        self.faults
    }

    // Counts a fault, and keeps its error.
    fn fail(&mut self, error: Error) -> Failed
        ensures counted { self.new ≡ record self.old { faults = one_more self.old.faults } }
        ensures follows { Follows (counted self.old.faults) (counted self.new.faults) }
        ensures rose { Rose (counted self.old.faults) (counted self.new.faults) }
    {
        self.faults = self.faults.saturating_add(1);
        self.error = Some(error);
        Failed
    }

    // The path of a file of a block: the block's own, or the one beside it.
    fn path(&self, kind: char, block: u64) -> Result<String, AllocError> {
        let folder = &self.folder;
        let user = self.user;
        format!(in self.alloc; "{folder}/u{user}/{kind}{block}")
    }

    // A new file, in the user's folder, which is made where it isn't there.
    fn create(&self, path: &str) -> IoResult<R::File> {
        match patiently(|| fs::File::create(&self.rt, path)) {
            Err(error) if error.kind() == ErrorKind::NotFound => {
                let folder = &self.folder;
                let user = self.user;
                let folder = format!(in self.alloc; "{folder}/u{user}")?;
                patiently(|| fs::create_dir_all(&self.rt, folder.as_str()))?;
                patiently(|| fs::File::create(&self.rt, path))
            }
            result => result,
        }
    }

    // Writes a file.
    fn write_file(&self, path: &str, bytes: &[u8]) -> IoResult<()> {
        let mut sink = WriteSink::new(self.create(path)?);
        match put_all(&mut sink, bytes) {
            Ok(()) => Ok(()),
            Err(WriteFault) => Err(kept_error(sink.last_error())),
        }
    }

    // Writes a block's file beside, and gives it the block's name. One that fails leaves no file beside, if it can.
    fn put_file(&self, block: u64, bytes: &[u8]) -> IoResult<()> {
        let path = self.path('b', block)?;
        let beside = self.path('t', block)?;
        let written = self.write_file(beside.as_str(), bytes);
        let renamed = match written {
            Ok(()) => patiently(|| fs::rename(&self.rt, beside.as_str(), path.as_str())),
            Err(error) => Err(error),
        };
        if renamed.is_err() {
            let _ = fs::remove_file(&self.rt, beside.as_str());
        }
        renamed
    }

    // Reads a block's file.
    fn get_file(&self, block: u64, out: &mut [u8]) -> IoResult<Got>
        ensures { IfOk result (IsWithin out.new) }
    {
        let path = self.path('b', block)?;
        let file = match patiently(|| fs::open(&self.rt, path.as_str())) {
            Ok(file) => file,
            Err(error) if error.kind() == ErrorKind::NotFound => return Ok(Got::Absent),
            Err(error) => return Err(error),
        };
        let len = file.metadata()?.len();
        if len > out.len() as u64 {
            return Ok(Got::Longer(len));
        }
        let mut source = ReadSource::new(file);
        match read_full(&mut source, out) {
            Ok(count) => Ok(Got::Bytes(count)),
            Err(Failed) => Err(kept_error(source.last_error())),
        }
    }

    // Removes a block's file. It is well where there is none.
    fn remove_file(&self, block: u64) -> IoResult<()> {
        let path = self.path('b', block)?;
        match patiently(|| fs::remove_file(&self.rt, path.as_str())) {
            Err(error) if error.kind() == ErrorKind::NotFound => Ok(()),
            result => result,
        }
    }
}

// An error of the same kind.
fn kept_error(error: Option<&Error>) -> Error {
    match error {
        Some(error) => Error::from(error.kind()),
        None => Error::from(ErrorKind::Other),
    }
}

impl<R: Files + Drop> Shelf for ShelfDir<R> {
    ghost told = { λ _. nothing_told };

    ghost faults = { λ s. counted s.faults };

    fn put(&mut self, block: u64, bytes: &[u8]) -> Result<(), Failed> {
        match self.put_file(block, bytes) {
            Ok(()) => Ok(()),
            Err(error) => Err(self.fail(error)),
        }
    }

    fn get(&mut self, block: u64, out: &mut [u8]) -> Result<Got, Failed> {
        match self.get_file(block, out) {
            Ok(got) => Ok(got),
            Err(error) => Err(self.fail(error)),
        }
    }

    fn remove(&mut self, block: u64) -> Result<(), Failed> {
        match self.remove_file(block) {
            Ok(()) => Ok(()),
            Err(error) => Err(self.fail(error)),
        }
    }
}
