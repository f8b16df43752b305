//! The caller's bytes, as what an image is read from. Reading them never fails.
ghost use Rattle.std.specs.Prelude.{Some};

use reg_text::Source;
use std::io;

/// The bytes that weren't read yet.
#[derive(Drop)]
pub(crate) struct Input<'a> {
    pub(crate) bytes: &'a [u8],
}

impl<'a> Source for Input<'a> {
    ghost remaining = { λ input. Some input.bytes.now };

    ghost failures = { λ _. Some 0 };

    fn receive(&mut self, buffer: &mut [u8]) -> io::Result<usize> {
        let count = self.bytes.len().min(buffer.len());
        buffer[..count].copy_from_slice(&self.bytes[..count]);
        self.bytes = &self.bytes[count..];
        Ok(count)
    }
}
