//! A text on its way to a writer.
ghost use Rattle.reg_tree_text.specs.Internal.Gathered.{Puts};

use reg_text::{Output, Sink};
use reg_tree_text::{DumpFault, settle};

/// Tells a text.
pub fn put_text<S: Sink>(
    output: &mut Output<String>,
    writer: &mut S,
    text: &str,
) -> Result<(), DumpFault>
    ensures { Puts output.old (S.contents writer.old, S.failures writer.old) output.new (S.contents writer.new, S.failures writer.new) text.now result }
{
    output.gathered.push_str(text)?;
    settle(output, writer)
}
