//! A line told part by part.
ghost use Rattle.std.specs.Prelude.{◌≡◌, ◌++◌, string_bytes, OnOk, flat_map};
ghost use Rattle.std.specs.Fmt.{decimal};
ghost use Rattle.reg_tree_text.specs.Internal.Gathered.{Puts};
ghost use Rattle.reg_diff.specs.Internal.Parts.{part_text};

use reg_text::{Output, Sink};
use reg_tree_text::{DumpFault, put_digits, put_escaped, settle};
use std::alloc::AllocError;

/// A part of a line.
#[derive(Clone, Copy)]
pub enum Part<'a> {
    /// What is told as it is.
    Word(&'a str),
    /// A name, or names joined by backslashes.
    Name(&'a [u8]),
    /// A number.
    Number(u64),
    /// Bytes, as two digits each.
    Digits(&'a [u8]),
}

/// A part that is told as it is.
fn write_word(text: &mut String, word: &str) -> Result<(), AllocError>
    ensures { OnOk result (string_bytes text.new ≡ string_bytes text.old ++ word.now) }
{
    text.push_str(word)
}

/// A number.
fn write_number(text: &mut String, number: u64) -> Result<(), AllocError>
    ensures { OnOk result (string_bytes text.new ≡ string_bytes text.old ++ decimal number) }
{
    write!(text, "{number}")
}

/// Tells a part of a line.
fn put_part<W: Sink>(
    output: &mut Output<String>,
    writer: &mut W,
    part: Part<'_>,
) -> Result<(), DumpFault>
    ensures { Puts output.old (W.contents writer.old, W.failures writer.old) output.new (W.contents writer.new, W.failures writer.new) (part_text part.entry) result }
{
    match part {
        Part::Word(word) => {
            write_word(&mut output.gathered, word)?;
            Ok(())
        }
        Part::Name(name) => put_escaped(output, writer, name),
        Part::Number(number) => {
            write_number(&mut output.gathered, number)?;
            Ok(())
        }
        Part::Digits(bytes) => put_digits(output, writer, bytes),
    }
}

/// Tells a line, part by part.
pub fn put_line<W: Sink>(
    output: &mut Output<String>,
    writer: &mut W,
    parts: &[Part<'_>],
) -> Result<(), DumpFault>
    ensures { Puts output.old (W.contents writer.old, W.failures writer.old) output.new (W.contents writer.new, W.failures writer.new) (flat_map part_text parts.now) result }
{
    for part in parts {
        put_part(output, writer, *part)?;
    }
    settle(output, writer)
}
