//! Where bytes come from: a reader of which it may be known how often it failed.

ghost use Rattle.std.specs.Prelude.{◌≡◌, ℕ, List, Option, None, MatchResult};
ghost use Rattle.std.specs.Io.{ReadsAtMost};
ghost use Rattle.std.specs.Io.KnownBytes.{ReadConsumes};
ghost use Rattle.reg_text.specs.Failures.{Stays, Fails};

use std::io::{self, Read};

/// Where bytes come from. Each reader of std's is one; of those nothing is known of failures, since [`Read`] says nothing of them. A
/// type that counts its own failures says of them what it likes to have told by the calls that read from it.
pub trait Source {
    /// The bytes that reads will give from here on, where they are known.
    ghost remaining: { Self → Option (List ℕ) };

    /// How many of its calls failed so far, where that is known.
    ghost failures: { Self → Option ℕ };

    /// Fills the front of a buffer with the next bytes, and answers how many: none only at the end, or where the buffer has no room. Or
    /// it fails, and gives none.
    fn receive(&mut self, buffer: &mut [u8]) -> io::Result<usize>
        ensures bound { ReadsAtMost result buffer.new }
        ensures bytes { ReadConsumes (remaining self.old) (remaining self.new) result buffer.new }
        ensures failures { MatchResult result (λ _. Stays (failures self.old) (failures self.new))
            (λ _. Fails (failures self.old) (failures self.new)) };
}

impl<R: Read> Source for R {
    ghost remaining = { R.remaining };

    ghost failures = { λ _. None };

    fn receive(&mut self, buffer: &mut [u8]) -> io::Result<usize> {
        self.read(buffer)
    }
}
