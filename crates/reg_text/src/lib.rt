//! Names and bytes on their way out: as text, and to a writer.
//!
//! Its one contract: each function is exactly its definition in `specs/Texts.antt`, appended to a text, and [`write_counted`] says how
//! many bytes a writer took, all unless it failed. What a device may be known to do besides reading and writing, that a call of it
//! failed, is said by [`Sink`] and [`Source`], which each writer and each reader of std's is. [`Output`] gathers bytes, in a text or as
//! they are ([`Gathered`]), sends them, and counts what the writer took (`specs/Outputs.antt`). It stands on no other crate of this
//! repository.
#![tactic(auto)]

mod gathered;
mod output;
mod sinks;
mod sources;

ghost use Rattle.std.specs.Prelude.{◌≡◌, ◌≤◌, ◌<◌, ◌++◌, length, take, string_bytes, OnOk};
ghost use Rattle.std.specs.Io.KnownBytes.{Appends};
ghost use Rattle.reg_text.specs.Failures.{Stays, Fails};
ghost use Rattle.reg_text.specs.Texts.{byte_text, digits_text, escaped as escaped_text, is_plain as is_plain_byte};

pub use gathered::Gathered;
pub use output::{Output, OutputFault};
pub use sinks::Sink;
pub use sources::Source;
use std::alloc::{AllocError, Global};

/// Whether a byte of a name stands for itself: 0x21 to 0x7E, but `%`.
fn is_plain(byte: u8) -> bool
    ensures { result ≡ is_plain_byte byte }
{
    byte.is_ascii_graphic() && byte != b'%'
}

/// A byte of a name: itself, or `%` and its two digits in upper case.
fn write_byte(text: &mut String, byte: u8) -> Result<(), AllocError>
    ensures { OnOk result (string_bytes text.new ≡ string_bytes text.old ++ byte_text byte) }
{
    if is_plain(byte) {
        return text.push(char::from(byte));
    }
    write!(text, "%{byte:02X}")
}

/// Appends a name, with `%` and two digits in the place of each byte that isn't plain.
pub fn write_escaped(text: &mut String, name: &[u8]) -> Result<(), AllocError>
    ensures { OnOk result (string_bytes text.new ≡ string_bytes text.old ++ escaped_text name.now) }
{
    for byte in name {
        write_byte(text, *byte)?;
    }
    Ok(())
}

/// Appends bytes as two digits each, in lower case.
pub fn write_digits(alloc: Global, text: &mut String, bytes: &[u8]) -> Result<(), AllocError>
    ensures { OnOk result (string_bytes text.new ≡ string_bytes text.old ++ digits_text bytes.now) }
{
    let digits = hex::encode(alloc, bytes)?;
    text.push_str(&digits)
}

/// Writes bytes, and answers how many the writer took: all, unless a write failed or took no byte. Then nothing more is written.
pub fn write_counted<S: Sink>(sink: &mut S, bytes: &[u8]) -> usize
    ensures count { result ≤ length bytes.now }
    ensures bytes { Appends (S.contents sink.old) (S.contents sink.new) (take result bytes.now) }
    ensures stays { result ≡ length bytes.now → Stays (S.failures sink.old) (S.failures sink.new) }
    ensures fails { result < length bytes.now → Fails (S.failures sink.old) (S.failures sink.new) }
{
    let mut taken = 0;
    while taken < bytes.len() {
        match sink.send(&bytes[taken..]) {
            Ok(count) => taken += count,
            Err(_) => return taken,
        }
    }
    taken
}
