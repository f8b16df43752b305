//! Two trees gone over from a key on.
ghost use Rattle.std.specs.Prelude.{◌≡◌, ◌↔◌, [], ◌++◌, true, Some, OnOk, IfOk, IfErr, MatchResult, string_bytes};
ghost use Rattle.std.specs.FinMap.{get};
ghost use Rattle.std.specs.Io.KnownBytes.{Appends};
ghost use Rattle.reg_names.specs.Names.{is_path};
ghost use Rattle.reg_heap.specs.Paths.{Path, Rec};
ghost use Rattle.reg_heap.specs.Edits.{folded_path};
ghost use Rattle.reg_text.specs.Failures.{Stays};
ghost use Rattle.reg_tree.specs.TreeKeys.{IsAt, IsThere};
ghost use Rattle.reg_tree_text.specs.DumpFronts.{IsStopped, IsBlamed};
ghost use Rattle.reg_tree_text.specs.Internal.Gathered.{Puts};
ghost use Rattle.reg_tree_text.specs.PathQueries.{key_at};
ghost use Rattle.reg_diff.specs.Alike.{AreAlike, IsCompared, CompareStops, CompareBlames};
ghost use Rattle.reg_diff.specs.Differences.{key_line, whole_key, field_changes, value_changes, key_changes, side_text, diff_text};

use crate::branch::walk_from;
use crate::fields::put_field_changes;
use crate::line::{Part, put_line};
use crate::side::Side;
use crate::values::{put_value_changes, put_values};
use crate::{BranchFault, Ignored};
use reg_text::{Output, Sink};
use reg_tree::{Node, Tree};
use reg_tree_text::{DumpFault, find_key, finish};
use std::alloc::Global;

/// Tells the line of a key that one tree alone has.
fn put_key_line<'a, W: Sink>(
    output: &mut Output<String>,
    writer: &mut W,
    side: Side,
    path: &'a [u8],
) -> Result<(), DumpFault>
    ensures { Puts output.old (W.contents writer.old, W.failures writer.old) output.new (W.contents writer.new, W.failures writer.new) (key_line side path.now) result }
{
    put_line(
        output,
        writer,
        &[
            Part::Word(side.word()),
            Part::Word(" key ="),
            Part::Name(path),
            Part::Word("\n"),
        ],
    )
}

/// Tells a key that one tree alone has, with its values.
fn put_whole_key<W: Sink>(
    output: &mut Output<String>,
    writer: &mut W,
    alloc: Global,
    side: Side,
    tree: &Tree,
    node: Node,
    path: &[u8],
) -> Result<(), DumpFault>
    requires { IsThere tree.now node }
    ensures { (p : Path) → IsAt tree.now p node → (key : Rec) → get tree.now.tree p ≡ Some key →
        Puts output.old (W.contents writer.old, W.failures writer.old) output.new (W.contents writer.new, W.failures writer.new) (whole_key side path.now key) result }
{
    put_key_line(output, writer, side, path)?;
    put_values(output, writer, alloc, side, tree, node, path)
}

/// Tells how a key differs that both trees have, but for what is ignored.
fn put_key_changes<W: Sink>(
    output: &mut Output<String>,
    writer: &mut W,
    alloc: Global,
    ignored: Ignored,
    old: &Tree,
    node: Node,
    new: &Tree,
    found: Node,
    path: &[u8],
) -> Result<(), DumpFault>
    requires node { IsThere old.now node }
    requires found { IsThere new.now found }
    ensures { (p q : Path) → IsAt old.now p node → IsAt new.now q found → (was is : Rec) → get old.now.tree p ≡ Some was → get new.now.tree q ≡ Some is →
        Puts output.old (W.contents writer.old, W.failures writer.old) output.new (W.contents writer.new, W.failures writer.new)
        (field_changes ignored path.now was is ++ value_changes ignored.order path.now was.values is.values) result }
{
    put_field_changes(output, writer, ignored, old, node, new, found, path)?;
    put_value_changes(
        output,
        writer,
        alloc,
        ignored.order,
        old,
        node,
        new,
        found,
        path,
    )
}

/// Tells a key at the end of a path, which the other tree may have: looked up there, and not looked for.
fn put_key<W: Sink>(
    output: &mut Output<String>,
    writer: &mut W,
    alloc: Global,
    ignored: Ignored,
    side: Side,
    tree: &Tree,
    node: Node,
    other: &Tree,
    path: &[u8],
) -> Result<(), DumpFault>
    requires node { IsThere tree.now node }
    requires path { is_path path.now ≡ true }
    ensures { (p : Path) → IsAt tree.now p node → (key : Rec) → get tree.now.tree p ≡ Some key →
        Puts output.old (W.contents writer.old, W.failures writer.old) output.new (W.contents writer.new, W.failures writer.new)
        (key_changes ignored side path.now key (get other.now.tree (folded_path path.now))) result }
{
    let Some(found) = other.resolve(other.root(), path) else {
        return put_whole_key(output, writer, alloc, side, tree, node, path);
    };
    match side {
        Side::Old => put_key_changes(
            output, writer, alloc, ignored, tree, node, other, found, path,
        ),
        Side::New => Ok(()),
    }
}

/// Tells the keys of one tree, from the one that a path leads to on, against the other tree.
fn put_side<W: Sink>(
    output: &mut Output<String>,
    writer: &mut W,
    alloc: Global,
    ignored: Ignored,
    side: Side,
    tree: &Tree,
    other: &Tree,
    path: &[u8],
) -> Result<(), DumpFault>
    requires { (p : Path) × (key_at tree.now.tree path.now ≡ Some p) }
    ensures { (p : Path) → key_at tree.now.tree path.now ≡ Some p →
        Puts output.old (W.contents writer.old, W.failures writer.old) output.new (W.contents writer.new, W.failures writer.new)
        (side_text ignored side tree.now.tree other.now.tree p) result }
{
    // What is true of every tree's names, as this call's contract says, makes those that lead to a key its path.
    let _root = tree.root();
    let mut walk = walk_from(alloc, tree, path)?;
    // No tree has so many keys: the bound only shows that the walk ends.
    for _key in 0..u64::MAX {
        put_key(
            output, writer, alloc, ignored, side, tree, walk.node, other, &walk.path,
        )?;
        if !walk.advance(tree)? {
            return Ok(());
        }
    }
    Err(DumpFault::Memory)
}

/// Tells how two trees differ at a path and below it.
fn put_diff<W: Sink>(
    output: &mut Output<String>,
    writer: &mut W,
    alloc: Global,
    ignored: Ignored,
    old: &Tree,
    new: &Tree,
    path: &[u8],
) -> Result<(), DumpFault>
    requires { (p : Path) × (key_at old.now.tree path.now ≡ Some p) × (key_at new.now.tree path.now ≡ Some p) }
    ensures { (p : Path) → key_at old.now.tree path.now ≡ Some p → key_at new.now.tree path.now ≡ Some p →
        Puts output.old (W.contents writer.old, W.failures writer.old) output.new (W.contents writer.new, W.failures writer.new)
        (diff_text ignored old.now.tree new.now.tree p) result }
{
    put_side(output, writer, alloc, ignored, Side::Old, old, new, path)?;
    put_side(output, writer, alloc, ignored, Side::New, new, old, path)
}

/// Whether nothing was told yet: nothing was written, and nothing is gathered.
fn is_untold(output: &Output<String>) -> bool
    ensures { (result ≡ true) ↔ ((output.now.written ≡ 0) × (string_bytes output.now.gathered ≡ [])) }
{
    output.written == 0 && output.gathered.is_empty()
}

/// Writes how two trees differ at a path and below it, and says whether they are alike there.
fn write_diff<S: Sink>(
    alloc: Global,
    old: &Tree,
    new: &Tree,
    path: &[u8],
    ignored: Ignored,
    writer: &mut S,
) -> Result<bool, DumpFault>
    requires { (p : Path) × (key_at old.now.tree path.now ≡ Some p) × (key_at new.now.tree path.now ≡ Some p) }
    ensures ok { (p : Path) → key_at old.now.tree path.now ≡ Some p → key_at new.now.tree path.now ≡ Some p →
        OnOk result (Appends (S.contents writer.old) (S.contents writer.new) (diff_text ignored old.now.tree new.now.tree p)) }
    ensures same { (p : Path) → key_at old.now.tree path.now ≡ Some p → key_at new.now.tree path.now ≡ Some p →
        IfOk result (λ is_same. (is_same ≡ true) ↔ AreAlike ignored old.now.tree new.now.tree p) }
    ensures err { (p : Path) → key_at old.now.tree path.now ≡ Some p → key_at new.now.tree path.now ≡ Some p →
        IfErr result (λ fault. IsStopped (S.contents writer.old) (S.contents writer.new) (diff_text ignored old.now.tree new.now.tree p) fault) }
    ensures flushed { OnOk result (S.is_flushed writer.new) }
    ensures failures { MatchResult result (λ _. Stays (S.failures writer.old) (S.failures writer.new))
        (λ fault. IsBlamed fault (S.failures writer.old) (S.failures writer.new)) }
{
    // What is true of every tree's keys, as this call's contract says, makes no line mean that they are alike.
    let _old_root = old.root();
    let _new_root = new.root();
    let mut output = Output::new(alloc);
    put_diff(&mut output, writer, alloc, ignored, old, new, path)?;
    let is_same = is_untold(&output);
    finish(&mut output, writer)?;
    Ok(is_same)
}

/// Writes how a new tree differs from an old one at the key that a path leads to from the root, names folded, and below it: a line for each
/// key and each value that is gone, has come or changed, but none for what is ignored. Says whether they are the same there but for that:
/// just then no line is written. The empty path is the root's. A line has the path from the root, as the tree whose key is told spells it.
/// The text goes to the writer while the keys are gone over, some 64 KB at a time, and at the end the writer is flushed.
///
/// `NoOldKey` where the text is no path or the old tree has no key there, else `NoNewKey` where the new one has none; and then nothing was
/// written. Else `Stopped`: with `Write` only where a write or the flush failed, after so many bytes of the text, and nothing more is asked
/// of the writer then; with `Memory` only where none failed, after some front of the text, also where 64 bits can't count the keys, though
/// no tree has so many.
pub fn diff<S: Sink>(
    alloc: Global,
    old: &Tree,
    new: &Tree,
    path: &[u8],
    ignored: Ignored,
    writer: &mut S,
) -> Result<bool, BranchFault>
    ensures ok { IfOk result (λ is_same. IsCompared ignored old.now.tree new.now.tree path.now is_same (S.contents writer.old) (S.contents writer.new)) }
    ensures err { IfErr result (λ fault. CompareStops fault ignored old.now.tree new.now.tree path.now (S.contents writer.old) (S.contents writer.new)) }
    ensures flushed { OnOk result (S.is_flushed writer.new) }
    ensures failures { MatchResult result (λ _. Stays (S.failures writer.old) (S.failures writer.new))
        (λ fault. CompareBlames fault (S.failures writer.old) (S.failures writer.new)) }
{
    let Some(_old_key) = find_key(old, path) else {
        return Err(BranchFault::NoOldKey);
    };
    let Some(_new_key) = find_key(new, path) else {
        return Err(BranchFault::NoNewKey);
    };
    match write_diff(alloc, old, new, path, ignored, writer) {
        Ok(same) => Ok(same),
        Err(fault) => Err(BranchFault::Stopped(fault)),
    }
}
