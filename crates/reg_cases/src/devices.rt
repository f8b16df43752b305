//! The standard input and output of a command, which stop or fail as its step says.

ghost use Rattle.std.specs.Prelude.{◌≡◌, IfOk};

use crate::conditions::{Failing, Habits};
use std::cell::Cell;
use std::fs::File;
use std::io;
use std::io::{ErrorKind, Read, Write};
use std::rc::Rc;

/// What a call answers that fails so.
fn failure(failing: Failing) -> io::Result<usize>
    ensures { IfOk result (λ count. count ≡ 0) }
{
    match failing {
        Failing::Nothing => Ok(0),
        Failing::Broken | Failing::Closed | Failing::Flush => Err(ErrorKind::BrokenPipe.into()),
        Failing::Full => Err(ErrorKind::StorageFull.into()),
        Failing::Interrupted => Err(ErrorKind::Interrupted.into()),
    }
}

/// How many bytes the first line of a text has, with its LF.
fn first_line(text: &[u8]) -> usize {
    let mut len = 0usize;
    for byte in text {
        len = len.saturating_add(1);
        if *byte == b'\n' {
            break;
        }
    }
    len
}

/// Gives the input of a step.
#[derive(Drop)]
pub struct Input<'a> {
    /// What is left to give.
    pub rest: &'a [u8],
    /// How it works.
    pub habits: Habits,
    /// How often it was called.
    pub calls: usize,
    /// The replies to lines that weren't given yet, where each line waits for those before it.
    pub replies: Option<&'a [u8]>,
    /// How many bytes of replies must have been passed on before the next line is given.
    pub due: usize,
    /// How many were.
    pub passed: Rc<Cell<usize>>,
}

impl Input<'_> {
    /// How many bytes it may give at once; in turns not more than a line, and none before the replies to those before it.
    fn room(&self) -> io::Result<usize> {
        if self.replies.is_none() {
            return Ok(self.habits.step);
        }
        if self.passed.get() != self.due {
            return Err(ErrorKind::WouldBlock.into());
        }
        Ok(first_line(self.rest).min(self.habits.step))
    }

    /// Notes the reply to a line that was given whole.
    fn await_reply(&mut self) {
        if let Some(replies) = self.replies {
            let len = first_line(replies);
            self.due = self.due.saturating_add(len);
            self.replies = Some(replies.get(len..).unwrap_or(b""));
        }
    }
}

impl Read for Input<'_> {
    fn read(&mut self, buf: &mut [u8]) -> io::Result<usize> {
        self.calls = self.calls.saturating_add(1);
        let room = self.room()?;
        if self.calls == self.habits.call || self.habits.call == 0 && self.rest.is_empty() {
            return failure(self.habits.failing);
        }
        let count = buf.len().min(room);
        let given = self.rest.read(&mut buf[..count])?;
        if let Some(piece) = buf.get(..given)
            && piece.ends_with(b"\n")
        {
            self.await_reply();
        }
        Ok(given)
    }
}

/// Takes the output of a step, for a file or to be kept in mind.
#[derive(Drop)]
pub struct Output {
    /// The file that it is for.
    pub file: Option<File>,
    /// What it kept, where there is no file.
    pub kept: Vec<u8>,
    /// How many bytes it took.
    pub taken: usize,
    /// How it works.
    pub habits: Habits,
    /// How often it was called to take bytes.
    pub calls: usize,
    /// How many bytes it had at the last flush.
    pub passed: Rc<Cell<usize>>,
}

impl Output {
    /// How many bytes it takes yet.
    fn room(&self) -> usize {
        self.habits.room.saturating_sub(self.taken)
    }
}

impl Write for Output {
    fn write(&mut self, buf: &[u8]) -> io::Result<usize> {
        self.calls = self.calls.saturating_add(1);
        let room = self.room();
        if self.calls == self.habits.call || room == 0 && !buf.is_empty() {
            return failure(self.habits.failing);
        }
        let count = buf.len().min(self.habits.step).min(room);
        let count = match &mut self.file {
            Some(file) => file.write(&buf[..count])?,
            None => {
                self.kept.extend_from_slice(&buf[..count])?;
                count
            }
        };
        self.taken = self.taken.saturating_add(count);
        Ok(count)
    }

    fn flush(&mut self) -> io::Result<()> {
        let is_failed = match self.habits.failing {
            Failing::Flush => true,
            Failing::Closed | Failing::Full => self.room() == 0,
            _ => false,
        };
        if is_failed {
            let _none = failure(self.habits.failing)?;
        }
        self.passed.set(self.taken);
        Ok(())
    }
}
