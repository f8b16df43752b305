//! What is told of a piece of work, by a clock that stands still but for its sleeps.

ghost use Rattle.std.specs.Prelude.{None};

use crate::{Awaited, Counted, Work, tell_each_second};
use std::alloc::Global;
use std::cell::Cell;
use std::io;
use std::io::{Read, Write};
use std::rt::Clock;
use std::time::Duration;

/// A clock on which a sleep takes a second, and the work ends in the third.
#[derive(Drop)]
struct Sleeper<'a> {
    seconds: Cell<u64>,
    work: &'a Work,
}

impl Clock for Sleeper<'_> {
    fn monotonic(&self) -> io::Result<Duration> {
        Ok(Duration::from_secs(self.seconds.get()))
    }

    fn since_1970(&self) -> io::Result<Duration> {
        Ok(Duration::ZERO)
    }

    fn sleep(&self, _duration: Duration) {
        let seconds = self.seconds.get().saturating_add(1);
        self.seconds.set(seconds);
        if seconds >= 3 {
            self.work.end();
        }
    }
}

/// What is told of a piece of work until it ends.
fn told(alloc: Global, work: &Work, is_mixed: bool) -> Vec<u8> {
    let clock = Sleeper {
        seconds: Cell::new(0),
        work,
    };
    let mut errors = Vec::new(alloc);
    tell_each_second(work, &mut errors, &clock, is_mixed);
    errors
}

/// What is told of a piece of work that wrote some bytes.
fn told_behind(alloc: Global, written: &[u8], is_mixed: bool) -> Vec<u8> {
    let work = Work::new();
    let mut output = Vec::new(alloc);
    let _ = Counted::new(&mut output, &work).write(written);
    told(alloc, &work, is_mixed)
}

/// A device that is waited for as long as the work lasts, and keeps what was told meanwhile.
#[derive(Drop)]
struct Slow<'a> {
    alloc: Global,
    work: &'a Work,
    told: Vec<u8>,
}

impl Read for Slow<'_> {
    ghost remaining = { λ _. None };

    fn read(&mut self, _buffer: &mut [u8]) -> io::Result<usize> {
        self.told = told(self.alloc, self.work, false);
        Ok(0)
    }
}

impl Write for Slow<'_> {
    ghost contents = { λ _. None };

    fn write(&mut self, bytes: &[u8]) -> io::Result<usize> {
        self.told = told(self.alloc, self.work, false);
        Ok(bytes.len())
    }

    fn flush(&mut self) -> io::Result<()> {
        Ok(())
    }
}

/// What is told while a slow device is read, or written.
fn told_meanwhile(alloc: Global, is_read: bool) -> Vec<u8> {
    let work = Work::new();
    let mut slow = Slow {
        alloc,
        work: &work,
        told: Vec::new(alloc),
    };
    if is_read {
        let _ = Awaited::new(&mut slow, &work).read(&mut [0]);
    } else {
        let _ = Counted::new(&mut slow, &work).write(b"abc");
    }
    slow.told
}

#[test]
fn tells_each_second_until_the_end(rt: HostRuntime) {
    let told = told_behind(rt.alloc(), b"abc", false);
    assert_eq!(rt;
        told.as_slice(),
        b"1 s, 3 bytes written\n2 s, 3 bytes written\n".as_slice()
    );
}

#[test]
fn tells_nothing_between_lines_of_the_work(rt: HostRuntime) {
    let told = told_behind(rt.alloc(), b"abc", true);
    assert_eq!(rt; told.as_slice(), b"".as_slice());
}

#[test]
fn tells_before_the_first_line_of_the_work(rt: HostRuntime) {
    let told = told_behind(rt.alloc(), b"", true);
    assert_eq!(rt;
        told.as_slice(),
        b"1 s, 0 bytes written\n2 s, 0 bytes written\n".as_slice()
    );
}

#[test]
fn tells_nothing_while_input_is_waited_for(rt: HostRuntime) {
    let told = told_meanwhile(rt.alloc(), true);
    assert_eq!(rt; told.as_slice(), b"".as_slice());
}

#[test]
fn tells_nothing_while_output_waits(rt: HostRuntime) {
    let told = told_meanwhile(rt.alloc(), false);
    assert_eq!(rt; told.as_slice(), b"".as_slice());
}
