//! Replies on their way to a writer, which passes on what it gets, so that nothing is held back while a read waits for the next line.

ghost use Rattle.std.specs.Prelude.{◌≡◌, ◌<◌, [], length, string_bytes, OnOk, IfErr};
ghost use Rattle.std.specs.Io.KnownBytes.{Appends};
ghost use Rattle.reg_text.specs.Outputs.{IsSettled};
ghost use Rattle.reg_script.specs.Internal.Outputs.{IsCut, Closes};
ghost use Rattle.reg_script.specs.Stops.{counted};

use crate::engine::ScriptFault;
use crate::failed::StrictFault;
use reg_text::Output;
use std::io::Write;

/// Writes what was gathered, once it is enough.
pub fn settle<W: Write>(output: &mut Output<String>, writer: &mut W) -> Result<(), ScriptFault>
    ensures few { OnOk result (length (string_bytes output.new.gathered) < 65536) }
    ensures sent { OnOk result (IsSettled (W.contents writer.old) (W.contents writer.new) (string_bytes output.old.gathered)
        (string_bytes output.new.gathered) output.old.written output.new.written) }
    ensures err { IfErr result
        (λ e. IsCut (W.contents writer.old) (W.contents writer.new) (string_bytes output.old.gathered) output.old.written e) }
{
    if !output.is_enough() {
        return Ok(());
    }
    flush(output, writer)
}

/// Writes all that was gathered and has the writer pass it on. A write or a flush that fails, or a write that takes no byte, is a
/// fault.
fn flush<W: Write>(output: &mut Output<String>, writer: &mut W) -> Result<(), ScriptFault>
    ensures sent { OnOk result (Appends (W.contents writer.old) (W.contents writer.new) (string_bytes output.old.gathered)) }
    ensures empty { OnOk result (string_bytes output.new.gathered ≡ []) }
    ensures written { OnOk result (output.new.written ≡ counted output.old.written (length (string_bytes output.old.gathered))) }
    ensures err { IfErr result
        (λ e. IsCut (W.contents writer.old) (W.contents writer.new) (string_bytes output.old.gathered) output.old.written e) }
{
    output.finish(writer)?;
    Ok(())
}

/// Writes what was gathered, if there is any, so that nothing is held back while a read waits for the next line.
pub fn pass_on<W: Write>(output: &mut Output<String>, writer: &mut W) -> Result<(), ScriptFault>
    ensures empty { OnOk result (string_bytes output.new.gathered ≡ []) }
    ensures sent { OnOk result (IsSettled (W.contents writer.old) (W.contents writer.new) (string_bytes output.old.gathered)
        (string_bytes output.new.gathered) output.old.written output.new.written) }
    ensures err { IfErr result
        (λ e. IsCut (W.contents writer.old) (W.contents writer.new) (string_bytes output.old.gathered) output.old.written e) }
{
    if output.gathered.is_empty() {
        return Ok(());
    }
    flush(output, writer)
}

/// Writes all that was gathered once a script has ended so, unless a write has failed before. A write that fails now is
/// the fault that is answered.
pub fn close<W: Write>(
    output: &mut Output<String>,
    writer: &mut W,
    ended: Result<(), StrictFault>,
) -> Result<(), StrictFault>
    ensures { Closes ended (string_bytes output.old.gathered) output.old.written (W.contents writer.old) (W.contents writer.new) result }
{
    if let Err(StrictFault::Script(ScriptFault::Write { .. })) = ended {
        return ended;
    }
    flush(output, writer)?;
    ended
}
