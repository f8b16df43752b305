//! The lines of what a key holds beside its values.
ghost use Rattle.std.specs.Prelude.{◌≡◌, Some};
ghost use Rattle.std.specs.FinMap.{get};
ghost use Rattle.reg_heap.specs.Paths.{Path, Rec};
ghost use Rattle.reg_tree.specs.TreeKeys.{IsAt, IsThere};
ghost use Rattle.reg_tree_text.specs.Internal.Gathered.{Puts};
ghost use Rattle.reg_diff.specs.Differences.{name_change, number_change, bytes_change, field_changes};

use crate::Ignored;
use crate::line::{Part, put_line};
use reg_text::{Output, Sink};
use reg_tree::{Node, Tree};
use reg_tree_text::DumpFault;

/// Tells a key's name that was spelt otherwise.
fn put_name_change<'a, W: Sink>(
    output: &mut Output<String>,
    writer: &mut W,
    path: &'a [u8],
    was: &'a [u8],
    is: &'a [u8],
) -> Result<(), DumpFault>
    ensures { Puts output.old (W.contents writer.old, W.failures writer.old) output.new (W.contents writer.new, W.failures writer.new)
        (name_change path.now was.now is.now) result }
{
    if was == is {
        return Ok(());
    }
    put_line(
        output,
        writer,
        &[
            Part::Word("changed name ="),
            Part::Name(path),
            Part::Word(" from ="),
            Part::Name(was),
            Part::Word(" to ="),
            Part::Name(is),
            Part::Word("\n"),
        ],
    )
}

/// Tells a number of a key that was another, where it isn't ignored.
fn put_number_change<'a, W: Sink>(
    output: &mut Output<String>,
    writer: &mut W,
    is_ignored: bool,
    what: &'a str,
    path: &'a [u8],
    was: u64,
    is: u64,
) -> Result<(), DumpFault>
    ensures { Puts output.old (W.contents writer.old, W.failures writer.old) output.new (W.contents writer.new, W.failures writer.new)
        (number_change is_ignored what.now path.now was is) result }
{
    if is_ignored | (was == is) {
        return Ok(());
    }
    put_line(
        output,
        writer,
        &[
            Part::Word("changed "),
            Part::Word(what),
            Part::Word(" ="),
            Part::Name(path),
            Part::Word(" from "),
            Part::Number(was),
            Part::Word(" to "),
            Part::Number(is),
            Part::Word("\n"),
        ],
    )
}

/// Tells bytes of a key that were others, where they aren't ignored.
fn put_bytes_change<'a, W: Sink>(
    output: &mut Output<String>,
    writer: &mut W,
    is_ignored: bool,
    what: &'a str,
    path: &'a [u8],
    was: &'a [u8],
    is: &'a [u8],
) -> Result<(), DumpFault>
    ensures { Puts output.old (W.contents writer.old, W.failures writer.old) output.new (W.contents writer.new, W.failures writer.new)
        (bytes_change is_ignored what.now path.now was.now is.now) result }
{
    if is_ignored | (was == is) {
        return Ok(());
    }
    put_line(
        output,
        writer,
        &[
            Part::Word("changed "),
            Part::Word(what),
            Part::Word(" ="),
            Part::Name(path),
            Part::Word(" from x"),
            Part::Digits(was),
            Part::Word(" to x"),
            Part::Digits(is),
            Part::Word("\n"),
        ],
    )
}

/// Tells what differs of a key's own fields and isn't ignored.
pub fn put_field_changes<W: Sink>(
    output: &mut Output<String>,
    writer: &mut W,
    ignored: Ignored,
    old: &Tree,
    node: Node,
    new: &Tree,
    found: Node,
    path: &[u8],
) -> Result<(), DumpFault>
    requires node { IsThere old.now node }
    requires found { IsThere new.now found }
    ensures { (p q : Path) → IsAt old.now p node → IsAt new.now q found → (was is : Rec) → get old.now.tree p ≡ Some was → get new.now.tree q ≡ Some is →
        Puts output.old (W.contents writer.old, W.failures writer.old) output.new (W.contents writer.new, W.failures writer.new)
        (field_changes ignored path.now was is) result }
{
    put_name_change(output, writer, path, old.name(node), new.name(found))?;
    let old_marks = u64::from(old.marks(node));
    let new_marks = u64::from(new.marks(found));
    put_number_change(
        output,
        writer,
        ignored.marks,
        "marks",
        path,
        old_marks,
        new_marks,
    )?;
    put_bytes_change(
        output,
        writer,
        ignored.class,
        "class",
        path,
        old.class(node),
        new.class(found),
    )?;
    let old_descriptor = old.descriptor(node);
    let new_descriptor = new.descriptor(found);
    put_bytes_change(
        output,
        writer,
        ignored.security,
        "security",
        path,
        old_descriptor,
        new_descriptor,
    )?;
    put_number_change(
        output,
        writer,
        ignored.time,
        "time",
        path,
        old.time(node),
        new.time(found),
    )
}
