//! Readers that give little at a time, and that fail where they are told to.

use std::io;
use std::io::Read;

/// Gives bytes, at most so many a call, and at their end fails or answers 0.
#[derive(Drop)]
pub struct FakeReader<'a> {
    /// What is left to give.
    pub rest: &'a [u8],
    /// How many bytes a call gives at most; with 0 each answers 0.
    pub step: usize,
    /// Whether a call at the end fails.
    pub fails: bool,
}

impl<'a> Read for FakeReader<'a> {
    fn read(&mut self, buf: &mut [u8]) -> io::Result<usize> {
        if self.fails && self.rest.is_empty() {
            return Err(io::Error::from(io::ErrorKind::BrokenPipe));
        }
        let count = buf.len().min(self.step);
        self.rest.read(&mut buf[..count])
    }
}
