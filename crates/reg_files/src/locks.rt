//! A file opened for one edit at a time.

use crate::fault::{Fault, Step, refused, taken};
use std::alloc::Global;
use std::fs;
use std::fs::{File, Metadata, OpenFile, OpenOptions, TryLockError};
use std::os::unix::fs::MetadataExt;
use std::rt::{Clock, Files};
use std::time::Duration;

/// An open file whose lock one holder at a time has.
pub trait Lockable {
    /// Takes the file's lock, or answers `WouldBlock` where another one has it. It is given up where the file is closed.
    fn try_lock(&self) -> Result<(), TryLockError>;
}

impl Lockable for File {
    fn try_lock(&self) -> Result<(), TryLockError> {
        File::try_lock(self)
    }
}

/// The path of a file without links, so that a save replaces the file and no link to it.
pub fn real_path<H: Files>(alloc: Global, host: &H, file: &str) -> Result<String, Fault> {
    let path = taken(Step::Find, host.canonicalize(alloc, file))?;
    Ok(path.into_string())
}

/// Whether two are of one file.
fn is_same(one: &Metadata, other: &Metadata) -> bool {
    one.dev() == other.dev() && one.ino() == other.ino()
}

/// Takes a file's lock. `NoFile` where it is a device, a pipe or a folder; `Busy` where another one has the lock, or where a file that
/// was saved since took this one's place.
fn lock<H: Files>(host: &H, path: &str, file: &H::File) -> Result<(), Fault>
where
    H::File: Lockable,
{
    match file.try_lock() {
        Ok(()) => {}
        Err(TryLockError::WouldBlock) => return Err(Fault::Busy),
        Err(TryLockError::Error(error)) => return Err(refused(Step::Lock, error)),
    }
    let locked = taken(Step::Lock, file.metadata())?;
    if !locked.is_file() {
        return Err(Fault::NoFile);
    }
    let standing = taken(Step::Lock, fs::metadata(host, path))?;
    if is_same(&locked, &standing) {
        Ok(())
    } else {
        Err(Fault::Busy)
    }
}

/// How many milliseconds pass before a file that is busy is tried again.
const NAP: u64 = 50;

/// How often that is in a second.
const TRIES: u64 = 20;

/// Opens a file, with leave to write where it is to be saved, and takes its lock; where it is busy, it is tried again for so many seconds.
pub fn open_waiting<H: Files + Clock>(
    host: &H,
    path: &str,
    writes: bool,
    seconds: u32,
) -> Result<H::File, Fault>
where
    H::File: Lockable,
{
    for _nap in 0..u64::from(seconds) * TRIES {
        match open_locked(host, path, writes) {
            Err(Fault::Busy) => host.sleep(Duration::from_millis(NAP)),
            opened => return opened,
        }
    }
    open_locked(host, path, writes)
}

/// Opens a file, with leave to write where it is to be saved, and takes its lock.
fn open_locked<H: Files>(host: &H, path: &str, writes: bool) -> Result<H::File, Fault>
where
    H::File: Lockable,
{
    let opened = OpenOptions::new().read(true).write(writes).open(host, path);
    let file = taken(Step::Open, opened)?;
    lock(host, path, &file)?;
    Ok(file)
}
