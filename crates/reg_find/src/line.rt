//! The lines of what was found.
ghost use Rattle.std.specs.Prelude.{◌≡◌, ◌++◌, string_bytes, OnOk};
ghost use Rattle.reg_tree_text.specs.Internal.Gathered.{Puts};
ghost use Rattle.reg_tree_text.specs.Listings.{after_name, key_line};
ghost use Rattle.reg_find.specs.Findings.{value_line};

use reg_text::{Output, Sink};
use reg_tree_text::{DumpFault, put_escaped, settle};
use reg_values::Value;
use std::alloc::AllocError;

/// A part of a line that is the same in each.
fn write_part(text: &mut String, part: &str) -> Result<(), AllocError>
    ensures { OnOk result (string_bytes text.new ≡ string_bytes text.old ++ part.now) }
{
    text.push_str(part)
}

/// The end of a value's line, behind its name.
#[tactic(auto, unfolding(reg_tree_text::specs::Listings::after_name))]
fn write_kind_and_size(text: &mut String, kind: u32, size: u32) -> Result<(), AllocError>
    ensures { OnOk result (string_bytes text.new ≡ string_bytes text.old ++ after_name kind size) }
{
    writeln!(text, " type {kind} size {size}")
}

/// Tells the line of a key at a path.
pub fn put_key_line<W: Sink>(
    output: &mut Output<String>,
    writer: &mut W,
    path: &[u8],
) -> Result<(), DumpFault>
    ensures { Puts output.old (W.contents writer.old, W.failures writer.old) output.new (W.contents writer.new, W.failures writer.new) (key_line path.now) result }
{
    write_part(&mut output.gathered, "key =")?;
    put_escaped(output, writer, path)?;
    write_part(&mut output.gathered, "\n")?;
    settle(output, writer)
}

/// Tells the line of a value of the key at a path.
pub fn put_value_line<W: Sink>(
    output: &mut Output<String>,
    writer: &mut W,
    path: &[u8],
    value: Value<'_>,
) -> Result<(), DumpFault>
    ensures { Puts output.old (W.contents writer.old, W.failures writer.old) output.new (W.contents writer.new, W.failures writer.new)
        (value_line path.now value.entry.name.now value.entry.kind value.entry.size) result }
{
    write_part(&mut output.gathered, "value =")?;
    put_escaped(output, writer, path)?;
    write_part(&mut output.gathered, " =")?;
    put_escaped(output, writer, value.name)?;
    write_kind_and_size(&mut output.gathered, value.kind, value.size)?;
    settle(output, writer)
}
