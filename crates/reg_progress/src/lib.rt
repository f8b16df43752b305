//! How a piece of work that takes long is told on the side, by a second thread.
//!
//! Its contracts: a [`Counted`] writer passes on what is written and nothing else, and an [`Awaited`] reader what is read. What is told,
//! and when, no clause says: clocks, terminals and threads are the host's. It stands on no other crate of this repository. Its types
//! are these two and [`Work`], which they share with the thread that tells.
#![tactic(auto)]

ghost use Rattle.std.specs.Prelude.{◌≡◌};

use std::io;
use std::io::{Read, Write};
use std::rt::Clock;
use std::sync::atomic::{AtomicBool, AtomicU64, Ordering};
use std::time::Duration;

/// How many milliseconds [`tell_each_second`] sleeps before it looks again whether the work is over.
const NAP: u64 = 20;

/// What is known of a piece of work while it goes on.
#[derive(Drop)]
pub struct Work {
    /// How many bytes it wrote.
    bytes: AtomicU64,
    /// Whether it waits for its input.
    is_reading: AtomicBool,
    /// Whether it waits until its output is taken.
    is_writing: AtomicBool,
    is_over: AtomicBool,
}

impl Work {
    /// One that is about to begin.
    pub fn new() -> Work {
        Work {
            bytes: AtomicU64::new(0),
            is_reading: AtomicBool::new(false),
            is_writing: AtomicBool::new(false),
            is_over: AtomicBool::new(false),
        }
    }

    /// Notes that it is over.
    pub fn end(&self) {
        self.is_over.store(true, Ordering::SeqCst);
    }
}

/// A writer whose bytes are counted.
#[derive(Drop)]
pub struct Counted<'a, W> {
    writer: W,
    work: &'a Work,
}

impl<'a, W: Write> Counted<'a, W> {
    /// One before another writer.
    pub fn new(writer: W, work: &'a Work) -> Counted<'a, W>
        ensures { W.contents result.writer ≡ W.contents writer }
    {
        Counted { writer, work }
    }
}

impl<W: Write> Write for Counted<'_, W> {
    ghost contents = { λ counted. W.contents counted.writer };

    fn write(&mut self, bytes: &[u8]) -> io::Result<usize> {
        self.work.is_writing.store(true, Ordering::SeqCst);
        let answer = self.writer.write(bytes);
        self.work.is_writing.store(false, Ordering::SeqCst);
        let count = answer?;
        self.work.bytes.fetch_add(count as u64, Ordering::SeqCst);
        Ok(count)
    }

    fn flush(&mut self) -> io::Result<()> {
        self.writer.flush()
    }
}

/// A reader of which it is known when it is waited for.
#[derive(Drop)]
pub struct Awaited<'a, R> {
    reader: R,
    work: &'a Work,
}

impl<'a, R: Read> Awaited<'a, R> {
    /// One before another reader.
    pub fn new(reader: R, work: &'a Work) -> Awaited<'a, R>
        ensures { R.remaining result.reader ≡ R.remaining reader }
    {
        Awaited { reader, work }
    }
}

impl<R: Read> Read for Awaited<'_, R> {
    ghost remaining = { λ awaited. R.remaining awaited.reader };

    fn read(&mut self, buffer: &mut [u8]) -> io::Result<usize> {
        self.work.is_reading.store(true, Ordering::SeqCst);
        let answer = self.reader.read(buffer);
        self.work.is_reading.store(false, Ordering::SeqCst);
        answer
    }
}

/// Tells how many seconds were worked, where these are more than were told, and answers how many were told. While the work waits until its
/// output is taken nothing is told; nor, where that goes to the same terminal, after its first byte.
fn tell_seconds<E: Write>(
    work: &Work,
    errors: &mut E,
    seconds: u64,
    told: u64,
    is_mixed: bool,
) -> u64 {
    let bytes = work.bytes.load(Ordering::SeqCst);
    if seconds <= told || work.is_writing.load(Ordering::SeqCst) || (is_mixed && bytes > 0) {
        return told;
    }
    let _ = writeln!(errors, "{seconds} s, {bytes} bytes written");
    seconds
}

/// Tells once a second how long was worked and how many bytes were written, until the work is over or the clock can't be asked. What the
/// work waits for its input isn't counted. `is_mixed` says that it writes to the terminal on which that is told.
pub fn tell_each_second<E: Write, C: Clock>(
    work: &Work,
    errors: &mut E,
    clock: &C,
    is_mixed: bool,
) {
    let Ok(mut seen) = clock.monotonic() else {
        return;
    };
    let mut worked = Duration::ZERO;
    let mut told = 0;
    for _ in 0..u64::MAX {
        clock.sleep(Duration::from_millis(NAP));
        if work.is_over.load(Ordering::SeqCst) {
            return;
        }
        let Ok(now) = clock.monotonic() else {
            return;
        };
        if !work.is_reading.load(Ordering::SeqCst) {
            worked = worked.saturating_add(now.saturating_sub(seen));
            told = tell_seconds(work, errors, worked.as_secs(), told, is_mixed);
        }
        seen = now;
    }
}

#[cfg(test)]
mod tests;
