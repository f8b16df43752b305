//! Readers and writers that keep why their last call failed: the libraries say only that one did.

ghost use Rattle.std.specs.Prelude.{◌≡◌, ◌≢◌, Bool, true, false, Option, Some, IfSome, option_copied};
ghost use Rattle.std.specs.declared.io.Error.{Error};
ghost use Rattle.std.specs.IoError.{error_kind};
ghost use Rattle.std.specs.declared.io.ErrorKind.TheVariants.{BrokenPipe};

use std::io;
use std::io::{ErrorKind, Read, Write};

/// A writer of the tool's output, of which it is known why a write failed, and whether somebody still reads it.
pub trait Output: Write {
    /// Whether a write or a flush failed since the other end of a pipe was closed.
    ghost closed: { Self → Bool };

    /// The error of the last write or flush that failed.
    ghost last: { Self → Option Error };

    /// Whether a write or a flush failed since the other end of a pipe was closed.
    fn is_closed(&self) -> bool
        ensures { result ≡ closed self.now };

    /// The error of the last write or flush that failed; `None` where none did.
    fn last_error(&self) -> Option<&io::Error>
        ensures { option_copied result ≡ last self.now };
}

/// What is known of the calls of a reader or a writer that failed.
#[derive(Drop)]
struct Failures {
    /// The error of the last one.
    error: Option<io::Error>,
    /// Whether one failed since the other end of a pipe was closed.
    is_closed: bool,
}

impl Failures {
    /// Keeps an error, and answers one of its kind.
    fn keep(&mut self, error: io::Error) -> io::Error
        ensures kept { self.new.error ≡ Some error }
        ensures kind { error_kind result ≡ error_kind error }
        ensures closes { error_kind error ≡ BrokenPipe → self.new.is_closed ≡ true }
        ensures stays { error_kind error ≢ BrokenPipe → self.new.is_closed ≡ self.old.is_closed }
    {
        let kind = error.kind();
        if kind == ErrorKind::BrokenPipe {
            self.is_closed = true;
        }
        self.error = Some(error);
        kind.into()
    }
}

/// A reader or a writer, with the error of its last call that failed.
#[derive(Drop)]
pub struct Device<D> {
    device: D,
    failures: Failures,
}

impl<D> Device<D> {
    /// A reader or a writer, none of whose calls failed.
    pub fn new(device: D) -> Device<D>
        ensures device { result.device ≡ device }
        ensures open { result.failures.is_closed ≡ false }
    {
        Device {
            device,
            failures: Failures {
                error: None,
                is_closed: false,
            },
        }
    }

    /// The reader or the writer itself.
    pub fn inner(&self) -> &D
        ensures { result.now ≡ self.now.device }
    {
        &self.device
    }

    /// The error of the last call that failed, of another kind where it was taken out before. It is taken out; nothing else changes.
    pub fn take_error(&mut self) -> io::Error
        ensures error { IfSome self.old.failures.error (λ error. result ≡ error) }
        ensures device { self.new.device ≡ self.old.device }
        ensures closed { self.new.failures.is_closed ≡ self.old.failures.is_closed }
    {
        self.failures
            .error
            .take()
            .unwrap_or_else(|| ErrorKind::Other.into())
    }
}

impl<D: Read> Read for Device<D> {
    ghost remaining = { λ reader. D.remaining reader.device };

    fn read(&mut self, buffer: &mut [u8]) -> io::Result<usize> {
        match self.device.read(buffer) {
            Ok(count) => Ok(count),
            Err(error) => Err(self.failures.keep(error)),
        }
    }
}

impl<D: Write> Write for Device<D> {
    ghost contents = { λ writer. D.contents writer.device };

    fn write(&mut self, bytes: &[u8]) -> io::Result<usize> {
        match self.device.write(bytes) {
            Ok(count) => Ok(count),
            Err(error) => Err(self.failures.keep(error)),
        }
    }

    fn flush(&mut self) -> io::Result<()> {
        match self.device.flush() {
            Ok(()) => Ok(()),
            Err(error) => Err(self.failures.keep(error)),
        }
    }
}

impl<D: Write> Output for Device<D> {
    ghost closed = { λ writer. writer.failures.is_closed };

    ghost last = { λ writer. writer.failures.error };

    fn is_closed(&self) -> bool {
        self.failures.is_closed
    }

    fn last_error(&self) -> Option<&io::Error> {
        self.failures.error.as_ref()
    }
}
