//! The system's host, but for what a step says that it refuses.
use crate::conditions::Refused;
use reg_files::Lockable;
use std::alloc::Allocator;
use std::fs::{File, Metadata, OpenFile, OpenOptions, Permissions, TryLockError};
use std::io::{ErrorKind, Read, Seek, SeekFrom, Write};
use std::path::PathBuf;
use std::rt::{Clock, Files};
use std::time::Duration;
use std::{fs, io};

/// The system's host, but for what it refuses.
#[derive(Drop)]
pub struct Host<'a> {
    pub rt: &'a HostRuntime,
    /// What it refuses.
    pub refused: Refused,
    /// The second since 1970 at which its clock stands, if it does.
    pub clock: Option<u64>,
}

/// A file of such a host.
#[derive(Drop)]
pub struct HostFile {
    file: File,
    refused: Refused,
    /// How many bytes may still be read.
    to_read: usize,
    /// How many bytes may still be written.
    to_write: usize,
}

/// The error of a step, where that is refused.
fn pass(is_refused: bool) -> io::Result<()> {
    if is_refused {
        return Err(ErrorKind::StorageFull.into());
    }
    Ok(())
}

impl Read for HostFile {
    fn read(&mut self, buf: &mut [u8]) -> io::Result<usize> {
        pass(self.to_read == 0)?;
        let room = buf.len().min(self.to_read);
        let count = self.file.read(&mut buf[..room])?;
        self.to_read = self.to_read.saturating_sub(count);
        Ok(count)
    }
}

impl Write for HostFile {
    fn write(&mut self, buf: &[u8]) -> io::Result<usize> {
        pass(self.to_write == 0)?;
        let room = buf.len().min(self.to_write);
        let count = self.file.write(&buf[..room])?;
        self.to_write = self.to_write.saturating_sub(count);
        Ok(count)
    }

    fn flush(&mut self) -> io::Result<()> {
        self.file.flush()
    }
}

impl Seek for HostFile {
    fn seek(&mut self, to: SeekFrom) -> io::Result<u64> {
        self.file.seek(to)
    }
}

impl OpenFile for HostFile {
    fn metadata(&self) -> io::Result<Metadata> {
        self.file.metadata()
    }

    fn set_len(&self, size: u64) -> io::Result<()> {
        self.file.set_len(size)
    }

    fn sync_all(&self) -> io::Result<()> {
        pass(matches!(self.refused, Refused::Sync))?;
        self.file.sync_all()
    }

    fn sync_data(&self) -> io::Result<()> {
        self.file.sync_data()
    }

    fn set_permissions(&self, perm: Permissions) -> io::Result<()> {
        pass(matches!(self.refused, Refused::Permit))?;
        self.file.set_permissions(perm)
    }
}

impl Lockable for HostFile {
    fn try_lock(&self) -> Result<(), TryLockError> {
        if matches!(self.refused, Refused::Lock) {
            return Err(TryLockError::WouldBlock);
        }
        self.file.try_lock()
    }
}

impl Clock for Host<'_> {
    fn monotonic(&self) -> io::Result<Duration> {
        self.rt.monotonic()
    }

    fn since_1970(&self) -> io::Result<Duration> {
        pass(matches!(self.refused, Refused::Clock))?;
        match self.clock {
            Some(second) => Ok(Duration::from_secs(second)),
            None => self.rt.since_1970(),
        }
    }
}

impl Files for Host<'_> {
    type File = HostFile;

    type Dir = <HostRuntime as Files>::Dir;

    fn open_file(&self, how: &OpenOptions, path: &str) -> io::Result<HostFile> {
        let (mut to_read, mut to_write) = (usize::MAX, usize::MAX);
        match self.refused {
            Refused::Create => pass(how.asks_create_new())?,
            Refused::Folder => pass(fs::metadata(self.rt, path).is_ok_and(|found| found.is_dir()))?,
            Refused::Read(past) => to_read = past,
            Refused::Write(past) => to_write = past,
            _ => {}
        }
        Ok(HostFile {
            file: self.rt.open_file(how, path)?,
            refused: self.refused,
            to_read,
            to_write,
        })
    }

    fn open_dir(&self, path: &str) -> io::Result<Self::Dir> {
        self.rt.open_dir(path)
    }

    fn metadata(&self, path: &str) -> io::Result<Metadata> {
        Files::metadata(self.rt, path)
    }

    fn symlink_metadata(&self, path: &str) -> io::Result<Metadata> {
        self.rt.symlink_metadata(path)
    }

    fn copy(&self, from: &str, to: &str) -> io::Result<u64> {
        self.rt.copy(from, to)
    }

    fn lchown(&self, path: &str, uid: Option<u32>, gid: Option<u32>) -> io::Result<()> {
        let is_refused = match self.refused {
            Refused::Owner => uid.is_some(),
            Refused::Group => true,
            _ => false,
        };
        if is_refused {
            return Err(ErrorKind::PermissionDenied.into());
        }
        self.rt.lchown(path, uid, gid)
    }

    fn rename(&self, from: &str, to: &str) -> io::Result<()> {
        match self.refused {
            Refused::Rename => pass(true)?,
            Refused::Unlocked => pass(File::open(self.rt, to)?.try_lock().is_ok())?,
            _ => {}
        }
        self.rt.rename(from, to)
    }

    fn remove_file(&self, path: &str) -> io::Result<()> {
        self.rt.remove_file(path)
    }

    fn create_dir(&self, path: &str) -> io::Result<()> {
        self.rt.create_dir(path)
    }

    fn remove_dir(&self, path: &str) -> io::Result<()> {
        self.rt.remove_dir(path)
    }

    fn remove_dir_all<B: Allocator>(&self, alloc: B, path: &str) -> io::Result<()> {
        self.rt.remove_dir_all(alloc, path)
    }

    fn canonicalize<B: Allocator>(&self, alloc: B, path: &str) -> io::Result<PathBuf<B>> {
        self.rt.canonicalize(alloc, path)
    }
}
