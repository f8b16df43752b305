//! What is told on its way to a writer.
ghost use Rattle.std.specs.Prelude.{◌≡◌, ◌<◌, [], length, OnOk};
ghost use Rattle.reg_text.specs.Texts.{escaped, digits_text};
ghost use Rattle.reg_tree_text.specs.Internal.Gathered.{Tells, Puts};

use crate::DumpFault;
use reg_text::{Gathered, Output, Sink, write_digits, write_escaped};

/// How many bytes of a name or of data are told at a time.
const PIECE: usize = 8_192;

/// Writes what was gathered, once it is enough, so that less than 65,536 bytes are left. A write that fails, or takes no byte, is a fault.
/// `Memory` comes for a count of what was written that 64 bits can't hold, before anything is written.
pub fn settle<T: Gathered, W: Sink>(output: &mut Output<T>, writer: &mut W) -> Result<(), DumpFault>
    ensures tells { Tells (T.bytes output.old.gathered) output.old.written (W.contents writer.old, W.failures writer.old)
        (T.bytes output.new.gathered) output.new.written (W.contents writer.new, W.failures writer.new) [] result }
    ensures few { OnOk result (length (T.bytes output.new.gathered) < 65536) }
{
    if !output.can_count() {
        return Err(DumpFault::Memory);
    }
    output.settle(writer)?;
    Ok(())
}

/// Writes all that was gathered and has the writer pass it on. The faults are those of [`settle`], or that the writer failed to pass it
/// on.
pub fn finish<T: Gathered, W: Sink>(output: &mut Output<T>, writer: &mut W) -> Result<(), DumpFault>
    ensures puts { Tells (T.bytes output.old.gathered) output.old.written (W.contents writer.old, W.failures writer.old)
        (T.bytes output.new.gathered) output.new.written (W.contents writer.new, W.failures writer.new) [] result }
    ensures empty { OnOk result (T.bytes output.new.gathered ≡ []) }
    ensures flushed { OnOk result (W.is_flushed writer.new) }
{
    if !output.can_count() {
        return Err(DumpFault::Memory);
    }
    output.finish(writer)?;
    Ok(())
}

/// Tells a name, or names joined by backslashes, with `%` and two digits in the place of each byte that isn't plain.
pub fn put_escaped<W: Sink>(
    output: &mut Output<String>,
    writer: &mut W,
    name: &[u8],
) -> Result<(), DumpFault>
    ensures { Puts output.old (W.contents writer.old, W.failures writer.old) output.new (W.contents writer.new, W.failures writer.new) (escaped name.now) result }
{
    let mut from = 0;
    while from < name.len() {
        let piece = PIECE.min(name.len() - from);
        write_escaped(&mut output.gathered, &name[from..from + piece])?;
        settle(output, writer)?;
        from += piece;
    }
    Ok(())
}

/// Tells bytes as two digits each, in lower case.
pub fn put_digits<W: Sink>(
    output: &mut Output<String>,
    writer: &mut W,
    bytes: &[u8],
) -> Result<(), DumpFault>
    ensures { Puts output.old (W.contents writer.old, W.failures writer.old) output.new (W.contents writer.new, W.failures writer.new) (digits_text bytes.now) result }
{
    let alloc = *output.gathered.allocator();
    let mut from = 0;
    while from < bytes.len() {
        let piece = PIECE.min(bytes.len() - from);
        write_digits(alloc, &mut output.gathered, &bytes[from..from + piece])?;
        settle(output, writer)?;
        from += piece;
    }
    Ok(())
}
