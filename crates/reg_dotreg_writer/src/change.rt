//! The block of a key that is gone, has come or changed.
ghost use Rattle.std.specs.Prelude.{◌≡◌, ◌<◌, ◌&&◌, ◌||◌, ◌++◌, ◌∷◌, [], not, true, is_some, flat_map, if◌then◌else◌, Some, OnOk, IfOk};
ghost use Rattle.std.specs.FinMap.{get};
ghost use Rattle.std.specs.List.{list_any};
ghost use Rattle.reg_names.specs.Names.{is_path};
ghost use Rattle.reg_heap.specs.Paths.{Path, Rec};
ghost use Rattle.reg_heap.specs.Edits.{values_at, folded_path};
ghost use Rattle.reg_tree.specs.TreeKeys.{IsAt, IsThere, IsResolved};
ghost use Rattle.reg_diff.specs.Internal.Parts.{member_of};
ghost use Rattle.reg_dotreg_writer.specs.EntryTexts.{line_end, name_told};
ghost use Rattle.reg_dotreg_writer.specs.Entries.{key_line};
ghost use Rattle.reg_dotreg_writer.specs.Changes.{is_new, rooted, gone_line, change_here, is_told as is_told_of};
ghost use Rattle.reg_dotreg_writer.specs.Internal.Pieces.{plain};
ghost use Rattle.reg_dotreg_writer.specs.Internal.ChangePieces.{value_pieces, told_pieces, all_told_pieces, change_pieces};
ghost use Rattle.reg_dotreg_writer.specs.Internal.Sending.{Puts};

use crate::encoding::{push_character, push_plain};
use crate::side::Side;
use crate::telling::{is_told, look_over, shift};
use crate::value::{push_entry, push_name};
use reg_diff::{Copied, read_value};
use reg_text::{Output, Sink};
use reg_tree::{Node, Tree};
use reg_tree_text::{DumpFault, settle};
use std::alloc::{AllocError, Global};

/// Appends the names that lead to a key, the root's first.
fn push_rooted(
    bytes: &mut Vec<u8>,
    is_utf8: bool,
    root: &[u8],
    path: &[u8],
) -> Result<(), AllocError>
    ensures { OnOk result (bytes.new.items ≡ bytes.old.items ++ plain is_utf8 (rooted root.now path.now)) }
{
    push_plain(bytes, is_utf8, root)?;
    if path.is_empty() {
        return Ok(());
    }
    push_character(bytes, is_utf8, b'\\')?;
    push_plain(bytes, is_utf8, path)
}

/// Appends the line of a key, which is gone or not.
fn push_change_line(
    bytes: &mut Vec<u8>,
    is_utf8: bool,
    is_gone: bool,
    root: &[u8],
    path: &[u8],
) -> Result<(), AllocError>
    ensures { OnOk result (bytes.new.items ≡ bytes.old.items ++ plain is_utf8
        (if is_gone then gone_line (rooted root.now path.now) else key_line (rooted root.now path.now))) }
{
    push_opening(bytes, is_utf8, is_gone)?;
    push_rooted(bytes, is_utf8, root, path)?;
    push_plain(bytes, is_utf8, b"]\r\n")
}

/// Appends what the line of a key begins with.
fn push_opening(bytes: &mut Vec<u8>, is_utf8: bool, is_gone: bool) -> Result<(), AllocError>
    ensures { OnOk result (bytes.new.items ≡ bytes.old.items ++ plain is_utf8 (if is_gone then 91 ∷ 45 ∷ [] else 91 ∷ [])) }
{
    if is_gone {
        return push_plain(bytes, is_utf8, b"[-");
    }
    push_character(bytes, is_utf8, b'[')
}

/// Appends the entry of a value: that it is gone, or what it is.
fn push_value(
    alloc: Global,
    bytes: &mut Vec<u8>,
    is_utf8: bool,
    side: Side,
    value: &Copied<'_>,
) -> Result<(), AllocError>
    ensures { OnOk result (bytes.new.items ≡ bytes.old.items ++ value_pieces is_utf8 side (member_of value.now)) }
{
    match side {
        Side::Old => push_gone_value(bytes, is_utf8, value.name),
        Side::New => push_entry(alloc, bytes, is_utf8, value.name, value.kind, &value.bytes),
    }
}

/// Appends the entry of a value that is gone.
fn push_gone_value(bytes: &mut Vec<u8>, is_utf8: bool, name: &[u8]) -> Result<(), AllocError>
    ensures { OnOk result (bytes.new.items ≡ bytes.old.items ++ (plain is_utf8 (name_told name.now) ++ plain is_utf8 (61 ∷ 45 ∷ line_end))) }
{
    push_name(bytes, is_utf8, name)?;
    push_plain(bytes, is_utf8, b"=-\r\n")
}

/// Tells a value, if it is told where the other tree has this key or none.
fn put_if_told<W: Sink>(
    output: &mut Output<Vec<u8>>,
    writer: &mut W,
    alloc: Global,
    is_utf8: bool,
    side: Side,
    value: &Copied<'_>,
    other: &Tree,
    found: Option<Node>,
    front: u32,
    back: u32,
) -> Result<(), DumpFault>
    requires { (q : Path) × IsResolved other.now q found }
    ensures { (q : Path) → IsResolved other.now q found →
        Puts output.old (W.contents writer.old, W.failures writer.old) output.new (W.contents writer.new, W.failures writer.new)
        (told_pieces is_utf8 (get other.now.tree q) side (member_of value.now)) result }
{
    if !is_told(alloc, side, value, other, found, front, back)? {
        return Ok(());
    }
    push_value(alloc, &mut output.gathered, is_utf8, side, value)?;
    settle(output, writer)
}

/// Tells the values of a key that are told, in their order.
fn put_told_values<W: Sink>(
    output: &mut Output<Vec<u8>>,
    writer: &mut W,
    alloc: Global,
    is_utf8: bool,
    side: Side,
    tree: &Tree,
    node: Node,
    other: &Tree,
    found: Option<Node>,
) -> Result<(), DumpFault>
    requires node { IsThere tree.now node }
    requires found { (q : Path) × IsResolved other.now q found }
    ensures { (p q : Path) → IsAt tree.now p node → IsResolved other.now q found →
        Puts output.old (W.contents writer.old, W.failures writer.old) output.new (W.contents writer.new, W.failures writer.new)
        (all_told_pieces is_utf8 (get other.now.tree q) side (values_at tree.now.tree p)) result }
{
    let more = shift(tree, node, other, found);
    for index in 0..tree.values(node) {
        let value = read_value(alloc, tree, node, index)?;
        let back = index.wrapping_add(more);
        put_if_told(
            output, writer, alloc, is_utf8, side, &value, other, found, index, back,
        )?;
    }
    Ok(())
}

/// Whether a key is gone.
fn is_gone(side: Side, found: Option<Node>) -> bool
    ensures { result ≡ (not (is_some found) && not (is_new side)) }
{
    found.is_none() && !side.is_new()
}

/// Tells the block of a key, where the other tree has this key or none.
fn put_block<W: Sink>(
    output: &mut Output<Vec<u8>>,
    writer: &mut W,
    alloc: Global,
    is_utf8: bool,
    side: Side,
    tree: &Tree,
    node: Node,
    other: &Tree,
    found: Option<Node>,
    root: &[u8],
    path: &[u8],
) -> Result<(), DumpFault>
    requires node { IsThere tree.now node }
    requires found { (q : Path) × IsResolved other.now q found }
    ensures { (p q : Path) → IsAt tree.now p node → IsResolved other.now q found →
        Puts output.old (W.contents writer.old, W.failures writer.old) output.new (W.contents writer.new, W.failures writer.new)
        (plain is_utf8 (if not (is_some found) && not (is_new side) then gone_line (rooted root.now path.now) else key_line (rooted root.now path.now))
        ++ (all_told_pieces is_utf8 (get other.now.tree q) side (values_at tree.now.tree p) ++ plain is_utf8 line_end)) result }
{
    let gone = is_gone(side, found);
    push_change_line(&mut output.gathered, is_utf8, gone, root, path)?;
    put_told_values(
        output, writer, alloc, is_utf8, side, tree, node, other, found,
    )?;
    push_plain(&mut output.gathered, is_utf8, b"\r\n")?;
    settle(output, writer)
}

/// Whether something is told of a key, where the other tree has it or not: whether that lacks it, or a value is told.
fn is_changed(
    alloc: Global,
    side: Side,
    tree: &Tree,
    node: Node,
    other: &Tree,
    found: Option<Node>,
) -> Result<bool, AllocError>
    requires node { IsThere tree.now node }
    requires found { (q : Path) × IsResolved other.now q found }
    ensures { (p q : Path) → IsAt tree.now p node → IsResolved other.now q found →
        IfOk result (λ changed. changed ≡ (not (is_some found) || list_any (is_told_of (get other.now.tree q) side) (values_at tree.now.tree p))) }
{
    if found.is_none() {
        return Ok(true);
    }
    Ok(look_over(alloc, side, tree, node, other, found)?.is_any)
}

/// Tells what changes of a key, to which these names lead below the root. The other tree has it at their end, or lacks it.
pub fn put_change<W: Sink>(
    output: &mut Output<Vec<u8>>,
    writer: &mut W,
    alloc: Global,
    is_utf8: bool,
    side: Side,
    tree: &Tree,
    node: Node,
    other: &Tree,
    root: &[u8],
    path: &[u8],
) -> Result<(), DumpFault>
    requires node { IsThere tree.now node }
    requires path { is_path path.now ≡ true }
    ensures { (p : Path) → IsAt tree.now p node → (key : Rec) → get tree.now.tree p ≡ Some key →
        Puts output.old (W.contents writer.old, W.failures writer.old) output.new (W.contents writer.new, W.failures writer.new)
        (flat_map (change_pieces is_utf8 root.now) (change_here side path.now key (get other.now.tree (folded_path path.now)))) result }
{
    let found = other.resolve(other.root(), path);
    if !is_changed(alloc, side, tree, node, other, found)? {
        return Ok(());
    }
    put_block(
        output, writer, alloc, is_utf8, side, tree, node, other, found, root, path,
    )
}
