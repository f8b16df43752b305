//! The lines of a key's values.
ghost use Rattle.std.specs.Prelude.{◌≡◌, ◌<◌, length, slice_get, Some, IfOk, flat_map};
ghost use Rattle.reg_heap.specs.Paths.{Path, Member};
ghost use Rattle.reg_heap.specs.Edits.{values_at};
ghost use Rattle.reg_tree.specs.TreeKeys.{IsAt, IsThere};
ghost use Rattle.reg_tree_text.specs.Internal.Gathered.{Puts};
ghost use Rattle.reg_diff.specs.Differences.{value_line, value_change, order_line, lost_line, come_line, lost_values, come_values, value_changes};
ghost use Rattle.reg_diff.specs.Internal.Parts.{member_of, is_nothing};

use crate::line::{Part, put_line};
use crate::side::Side;
use crate::value::{Copied, are_same, index_near, is_same, read_value};
use reg_text::{Output, Sink};
use reg_tree::{Node, Tree};
use reg_tree_text::DumpFault;
use std::alloc::Global;

/// Tells a value that one tree alone has.
fn put_value<'a, W: Sink>(
    output: &mut Output<String>,
    writer: &mut W,
    side: Side,
    path: &'a [u8],
    value: &'a Copied<'a>,
) -> Result<(), DumpFault>
    ensures { Puts output.old (W.contents writer.old, W.failures writer.old) output.new (W.contents writer.new, W.failures writer.new)
        (value_line side path.now (member_of value.now)) result }
{
    put_line(
        output,
        writer,
        &[
            Part::Word(side.word()),
            Part::Word(" value ="),
            Part::Name(path),
            Part::Word(" ="),
            Part::Name(value.name),
            Part::Word(" type "),
            Part::Number(u64::from(value.kind)),
            Part::Word(" x"),
            Part::Digits(&value.bytes),
            Part::Word("\n"),
        ],
    )
}

/// Tells a value in whose place another one is found.
fn put_value_change<'a, W: Sink>(
    output: &mut Output<String>,
    writer: &mut W,
    path: &'a [u8],
    was: &'a Copied<'a>,
    is: &'a Copied<'a>,
) -> Result<(), DumpFault>
    ensures { Puts output.old (W.contents writer.old, W.failures writer.old) output.new (W.contents writer.new, W.failures writer.new)
        (value_change path.now (member_of was.now) (member_of is.now)) result }
{
    put_line(
        output,
        writer,
        &[
            Part::Word("changed value ="),
            Part::Name(path),
            Part::Word(" from ="),
            Part::Name(was.name),
            Part::Word(" type "),
            Part::Number(u64::from(was.kind)),
            Part::Word(" x"),
            Part::Digits(&was.bytes),
            Part::Word(" to ="),
            Part::Name(is.name),
            Part::Word(" type "),
            Part::Number(u64::from(is.kind)),
            Part::Word(" x"),
            Part::Digits(&is.bytes),
            Part::Word("\n"),
        ],
    )
}

/// Tells all values of a key that one tree alone has, in their order.
pub fn put_values<W: Sink>(
    output: &mut Output<String>,
    writer: &mut W,
    alloc: Global,
    side: Side,
    tree: &Tree,
    node: Node,
    path: &[u8],
) -> Result<(), DumpFault>
    requires { IsThere tree.now node }
    ensures { (p : Path) → IsAt tree.now p node →
        Puts output.old (W.contents writer.old, W.failures writer.old) output.new (W.contents writer.new, W.failures writer.new)
        (flat_map (value_line side path.now) (values_at tree.now.tree p)) result }
{
    for index in 0..tree.values(node) {
        let value = read_value(alloc, tree, node, index)?;
        put_value(output, writer, side, path, &value)?;
    }
    Ok(())
}

/// Tells an old value where the new key has none of its name or another one, which may stand at one of two places; says whether nothing
/// was told.
fn put_lost_value<W: Sink>(
    output: &mut Output<String>,
    writer: &mut W,
    alloc: Global,
    was: &Copied<'_>,
    new: &Tree,
    found: Node,
    front: u32,
    back: u32,
    path: &[u8],
) -> Result<bool, DumpFault>
    requires { IsThere new.now found }
    ensures puts { (q : Path) → IsAt new.now q found →
        Puts output.old (W.contents writer.old, W.failures writer.old) output.new (W.contents writer.new, W.failures writer.new)
        (lost_line path.now (values_at new.now.tree q) (member_of was.now)) result }
    ensures quiet { (q : Path) → IsAt new.now q found →
        IfOk result (λ is_quiet. is_quiet ≡ is_nothing (lost_line path.now (values_at new.now.tree q) (member_of was.now))) }
{
    let Some(index) = index_near(new, found, was.name, front, back) else {
        put_value(output, writer, Side::Old, path, was)?;
        return Ok(false);
    };
    let is = read_value(alloc, new, found, index)?;
    if is_same(was, &is) {
        return Ok(true);
    }
    put_value_change(output, writer, path, was, &is)?;
    Ok(false)
}

/// Tells the old values of a key that are gone or changed, in their order; says whether there were none.
fn put_lost_values<W: Sink>(
    output: &mut Output<String>,
    writer: &mut W,
    alloc: Global,
    old: &Tree,
    node: Node,
    new: &Tree,
    found: Node,
    path: &[u8],
) -> Result<bool, DumpFault>
    requires node { IsThere old.now node }
    requires found { IsThere new.now found }
    ensures puts { (p q : Path) → IsAt old.now p node → IsAt new.now q found →
        Puts output.old (W.contents writer.old, W.failures writer.old) output.new (W.contents writer.new, W.failures writer.new)
        (lost_values path.now (values_at old.now.tree p) (values_at new.now.tree q)) result }
    ensures quiet { (p q : Path) → IsAt old.now p node → IsAt new.now q found →
        IfOk result (λ is_quiet. is_quiet ≡ is_nothing (lost_values path.now (values_at old.now.tree p) (values_at new.now.tree q))) }
{
    let mut is_quiet = true;
    let shift = new.values(found).wrapping_sub(old.values(node));
    for index in 0..old.values(node) {
        let was = read_value(alloc, old, node, index)?;
        let back = index.wrapping_add(shift);
        is_quiet &= put_lost_value(output, writer, alloc, &was, new, found, index, back, path)?;
    }
    Ok(is_quiet)
}

/// Tells the new values of a key that have come, in their order; says whether there were none.
fn put_come_values<W: Sink>(
    output: &mut Output<String>,
    writer: &mut W,
    alloc: Global,
    old: &Tree,
    node: Node,
    new: &Tree,
    found: Node,
    path: &[u8],
) -> Result<bool, DumpFault>
    requires node { IsThere old.now node }
    requires found { IsThere new.now found }
    ensures puts { (p q : Path) → IsAt old.now p node → IsAt new.now q found →
        Puts output.old (W.contents writer.old, W.failures writer.old) output.new (W.contents writer.new, W.failures writer.new)
        (come_values path.now (values_at old.now.tree p) (values_at new.now.tree q)) result }
    ensures quiet { (p q : Path) → IsAt old.now p node → IsAt new.now q found →
        IfOk result (λ is_quiet. is_quiet ≡ is_nothing (come_values path.now (values_at old.now.tree p) (values_at new.now.tree q))) }
{
    let mut is_quiet = true;
    let shift = old.values(node).wrapping_sub(new.values(found));
    for index in 0..new.values(found) {
        let is = read_value(alloc, new, found, index)?;
        let back = index.wrapping_add(shift);
        is_quiet &= put_come_value(output, writer, &is, old, node, index, back, path)?;
    }
    Ok(is_quiet)
}

/// Tells a new value where the old key has none of its name, which may stand at one of two places; says whether nothing was told.
fn put_come_value<W: Sink>(
    output: &mut Output<String>,
    writer: &mut W,
    is: &Copied<'_>,
    old: &Tree,
    node: Node,
    front: u32,
    back: u32,
    path: &[u8],
) -> Result<bool, DumpFault>
    requires { IsThere old.now node }
    ensures puts { (p : Path) → IsAt old.now p node →
        Puts output.old (W.contents writer.old, W.failures writer.old) output.new (W.contents writer.new, W.failures writer.new)
        (come_line path.now (values_at old.now.tree p) (member_of is.now)) result }
    ensures quiet { (p : Path) → IsAt old.now p node →
        IfOk result (λ is_quiet. is_quiet ≡ is_nothing (come_line path.now (values_at old.now.tree p) (member_of is.now))) }
{
    if index_near(old, node, is.name, front, back).is_some() {
        return Ok(true);
    }
    put_value(output, writer, Side::New, path, is)?;
    Ok(false)
}

/// Tells that a key's values stand in another order.
fn put_order<'a, W: Sink>(
    output: &mut Output<String>,
    writer: &mut W,
    path: &'a [u8],
) -> Result<(), DumpFault>
    ensures { Puts output.old (W.contents writer.old, W.failures writer.old) output.new (W.contents writer.new, W.failures writer.new) (order_line path.now) result }
{
    put_line(
        output,
        writer,
        &[
            Part::Word("changed order ="),
            Part::Name(path),
            Part::Word("\n"),
        ],
    )
}

/// Tells what differs of a key's values, their order where that isn't ignored.
pub fn put_value_changes<W: Sink>(
    output: &mut Output<String>,
    writer: &mut W,
    alloc: Global,
    is_order_ignored: bool,
    old: &Tree,
    node: Node,
    new: &Tree,
    found: Node,
    path: &[u8],
) -> Result<(), DumpFault>
    requires node { IsThere old.now node }
    requires found { IsThere new.now found }
    ensures { (p q : Path) → IsAt old.now p node → IsAt new.now q found →
        Puts output.old (W.contents writer.old, W.failures writer.old) output.new (W.contents writer.new, W.failures writer.new)
        (value_changes is_order_ignored path.now (values_at old.now.tree p) (values_at new.now.tree q)) result }
{
    // No two of a key's values have one name, as this call's contract says: lists that are the same tell nothing.
    let _root = old.root();
    if are_same(alloc, old, node, new, found)? {
        return Ok(());
    }
    let none_lost = put_lost_values(output, writer, alloc, old, node, new, found, path)?;
    let none_came = put_come_values(output, writer, alloc, old, node, new, found, path)?;
    if none_lost & none_came & !is_order_ignored {
        return put_order(output, writer, path);
    }
    Ok(())
}
