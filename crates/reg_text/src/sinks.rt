//! Where bytes go: a writer of which it may be known how often it failed.

ghost use Rattle.std.specs.Prelude.{◌≡◌, ◌≤◌, ◌<◌, ℕ, List, Option, None, length, take, ⊤, OnOk, IfOk, MatchResult};
ghost use Rattle.std.specs.Io.{WritesAtMost};
ghost use Rattle.std.specs.Io.KnownBytes.{Appends, Keeps, WriteAppends};
ghost use Rattle.reg_text.specs.Failures.{Stays, Fails};

use std::io::{self, Error, ErrorKind, Write};

/// Where bytes go. Each writer of std's is one; of those nothing is known of failures, since [`Write`] says nothing of them. A type
/// that counts its own failures says of them what it likes to have told by the calls that write to it.
pub trait Sink {
    /// The bytes that it holds, where they are known.
    ghost contents: { Self → Option (List ℕ) };

    /// How many of its calls failed so far, where that is known.
    ghost failures: { Self → Option ℕ };

    /// It passed on all that it took.
    ghost is_flushed: { Self → Type 0 };

    /// Takes some of the first bytes, at least one where there are any, and answers how many; or it fails, and takes none.
    fn send(&mut self, bytes: &[u8]) -> io::Result<usize>
        ensures bound { WritesAtMost result bytes.now }
        ensures some { IfOk result (λ n. 0 < length bytes.now → 0 < n) }
        ensures bytes { WriteAppends (contents self.old) (contents self.new) result bytes.now }
        ensures failures { MatchResult result (λ _. Stays (failures self.old) (failures self.new))
            (λ _. Fails (failures self.old) (failures self.new)) };

    /// Passes on all that it took, or fails.
    fn pass_on(&mut self) -> io::Result<()>
        ensures bytes { Keeps (contents self.old) (contents self.new) }
        ensures flushed { OnOk result (is_flushed self.new) }
        ensures failures { MatchResult result (λ _. Stays (failures self.old) (failures self.new))
            (λ _. Fails (failures self.old) (failures self.new)) };
}

impl<W: Write> Sink for W {
    ghost contents = { W.contents };

    ghost failures = { λ _. None };

    ghost is_flushed = { λ _. ⊤ };

    fn send(&mut self, bytes: &[u8]) -> io::Result<usize> {
        match self.write(bytes) {
            Ok(0) if !bytes.is_empty() => Err(Error::from(ErrorKind::WriteZero)),
            answer => answer,
        }
    }

    fn pass_on(&mut self) -> io::Result<()> {
        self.flush()
    }
}
