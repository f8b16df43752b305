//! The key that a path leads to, with all that is below it, written as a registration file.
ghost use Rattle.std.specs.Prelude.{◌≡◌, ◌<◌, true, List, [], ◌++◌, length, flat_map, option_copied, IsSome, OnOk, IfOk, IfErr, MatchResult};
ghost use Rattle.std.specs.FinMap.{get};
ghost use Rattle.std.specs.Io.KnownBytes.{Appends};
ghost use Rattle.std.specs.List.{list_all};
ghost use Rattle.std.specs.Option.{option_map};
ghost use Rattle.reg_names.specs.Names.{is_value_name_byte, is_path, text_of};
ghost use Rattle.reg_heap.specs.Edits.{folded_path};
ghost use Rattle.reg_tree.specs.TreeKeys.{IsAt};
ghost use Rattle.reg_tree_text.specs.DumpTexts.{Told, name_of};
ghost use Rattle.reg_text.specs.Failures.{Stays};
ghost use Rattle.reg_tree_text.specs.DumpFronts.{IsStopped, IsBlamed};
ghost use Rattle.reg_tree_text.specs.Internal.Walking.{Goes};
ghost use Rattle.reg_dotreg_writer.specs.Entries.{root_shown, entries_text, file_bytes, unwritable};
ghost use Rattle.reg_dotreg_writer.specs.Exports.{IsExported, ExportStops, ExportBlames};
ghost use Rattle.reg_dotreg_writer.specs.Internal.Pieces.{block_pieces, head_pieces, file_pieces};
ghost use Rattle.reg_dotreg_writer.specs.Internal.Sending.{Puts};

use crate::ExportFault;
use crate::block::put_key;
use crate::encoding::{push_mark, push_plain};
use crate::start::start;
use crate::writable::{can_stand, find_unwritable};
use reg_text::{Output, Sink};
use reg_tree::{Node, Tree};
use reg_tree_text::{DumpFault, Walk, find_key, finish};
use std::alloc::{AllocError, Global};

/// Appends what stands before the first key.
pub fn push_heading(bytes: &mut Vec<u8>, is_utf8: bool) -> Result<(), AllocError>
    ensures { OnOk result (bytes.new.items ≡ bytes.old.items ++ head_pieces is_utf8) }
{
    push_mark(bytes, is_utf8)?;
    push_plain(
        bytes,
        is_utf8,
        b"Windows Registry Editor Version 5.00\r\n\r\n",
    )
}

/// Tells the blocks of all keys on a walk.
fn put_blocks<W: Sink>(
    output: &mut Output<Vec<u8>>,
    writer: &mut W,
    alloc: Global,
    is_utf8: bool,
    tree: &Tree,
    walk: &mut Walk,
) -> Result<(), DumpFault>
    requires { (all : List Told) × Goes tree.now walk.old all }
    ensures { (all : List Told) → Goes tree.now walk.old all →
        Puts output.old (W.contents writer.old, W.failures writer.old) output.new (W.contents writer.new, W.failures writer.new)
        (flat_map (block_pieces is_utf8) all) result }
{
    // No tree has so many keys: the bound only shows that the walk ends.
    for _key in 0..u64::MAX {
        put_key(output, writer, alloc, is_utf8, tree, walk.node, &walk.path)?;
        if !walk.advance(tree)? {
            return Ok(());
        }
    }
    Err(DumpFault::Memory)
}

/// The root's name.
fn root_name(tree: &Tree) -> &[u8]
    ensures { result.now ≡ name_of (get tree.now.tree []) }
{
    tree.name(tree.root())
}

/// What stands for the root's name: a front that is given, or the name itself.
fn root_of<'a>(tree: &'a Tree, front: Option<&'a [u8]>) -> &'a [u8]
    ensures { result.now ≡ root_shown (option_copied front.entry) tree.now.tree }
{
    match front {
        Some(front) => front,
        None => root_name(tree),
    }
}

/// Tells the file of the key that a path leads to.
fn put_file<W: Sink>(
    output: &mut Output<Vec<u8>>,
    writer: &mut W,
    alloc: Global,
    is_utf8: bool,
    tree: &Tree,
    root: &[u8],
    path: &[u8],
    node: Node,
) -> Result<(), DumpFault>
    requires root { 0 < length root.now }
    requires path { is_path path.now ≡ true }
    requires there { IsSome (get tree.now.tree (folded_path path.now)) }
    requires at { IsAt tree.now (folded_path path.now) node }
    ensures { Puts output.old (W.contents writer.old, W.failures writer.old) output.new (W.contents writer.new, W.failures writer.new)
        (file_pieces is_utf8 root.now tree.now.tree (folded_path path.now)) result }
{
    push_heading(&mut output.gathered, is_utf8)?;
    let mut walk = start(alloc, tree, root, path, node)?;
    put_blocks(output, writer, alloc, is_utf8, tree, &mut walk)
}

/// Writes the file of the key that a path leads to, and flushes the writer.
fn write_file<W: Sink>(
    alloc: Global,
    is_utf8: bool,
    tree: &Tree,
    root: &[u8],
    path: &[u8],
    node: Node,
    writer: &mut W,
) -> Result<(), DumpFault>
    requires root { 0 < length root.now }
    requires allowed { list_all is_value_name_byte root.now ≡ true }
    requires path { is_path path.now ≡ true }
    requires there { IsSome (get tree.now.tree (folded_path path.now)) }
    requires at { IsAt tree.now (folded_path path.now) node }
    ensures ok { OnOk result (Appends (W.contents writer.old) (W.contents writer.new) (file_bytes is_utf8 (entries_text root.now tree.now.tree (folded_path path.now)))) }
    ensures err { IfErr result (λ fault.
        IsStopped (W.contents writer.old) (W.contents writer.new) (file_bytes is_utf8 (entries_text root.now tree.now.tree (folded_path path.now))) fault) }
    ensures flushed { OnOk result (W.is_flushed writer.new) }
    ensures failures { MatchResult result (λ _. Stays (W.failures writer.old) (W.failures writer.new))
        (λ fault. IsBlamed fault (W.failures writer.old) (W.failures writer.new)) }
{
    // Names are characters of ASCII, as this call's contract says.
    let _node = tree.root();
    let mut output = Output::new(alloc);
    put_file(&mut output, writer, alloc, is_utf8, tree, root, path, node)?;
    finish(&mut output, writer)
}

/// The names that lead to the first key that can't be written, of the one that a path leads to and those below it.
fn unwritable_at(
    alloc: Global,
    tree: &Tree,
    root: &[u8],
    path: &[u8],
    node: Node,
) -> Result<Option<Vec<u8>>, AllocError>
    requires root { 0 < length root.now }
    requires path { is_path path.now ≡ true }
    requires there { IsSome (get tree.now.tree (folded_path path.now)) }
    requires at { IsAt tree.now (folded_path path.now) node }
    ensures { IfOk result (λ key. option_map (λ v. v.items) key ≡
        option_map (λ (told : Told). text_of told.names) (unwritable root.now tree.now.tree (folded_path path.now))) }
{
    let mut walk = start(alloc, tree, root, path, node)?;
    find_unwritable(alloc, tree, &mut walk)
}

/// Writes the key that a path leads to from the root, names folded, with all that is below it as a registration file ("Windows
/// Registry Editor Version 5.00"): in UTF-16 behind its mark, the low byte of each unit first, or with `is_utf8` in UTF-8 without a
/// mark. The empty path is the root's. A front that is given, as `HKEY_LOCAL_MACHINE\SOFTWARE`, stands in the lines of keys for the
/// root's name. The text goes to the writer while the keys are gone over, some 64 KB at a time, and at the end the writer is flushed.
///
/// `Front` where the front has no character, a line break, a character beyond 0x01 to 0x7F, `-` as its first or a backslash as its last;
/// else `NoKey` where the text is no path or no key is there; else `Name` where a name that is to be written has a line break: that of the
/// key, of one on the way to it or below it, or of one of their values; and then nothing was written. Else `Stopped` where a write or
/// memory failed, after a front of the file; and nothing was written either where memory failed while the names were looked at.
#[tactic(auto, using(crate::proofs::FileSteps::stays_at))]
pub fn export<S: Sink>(
    alloc: Global,
    tree: &Tree,
    path: &[u8],
    front: Option<&[u8]>,
    is_utf8: bool,
    writer: &mut S,
) -> Result<(), ExportFault>
    ensures ok { OnOk result (IsExported tree.now.tree path.now (option_copied front.entry) is_utf8 (S.contents writer.old) (S.contents writer.new)) }
    ensures err { IfErr result (λ fault. ExportStops fault tree.now.tree path.now (option_copied front.entry) is_utf8
        (S.contents writer.old) (S.contents writer.new)) }
    ensures flushed { OnOk result (S.is_flushed writer.new) }
    ensures failures { MatchResult result (λ _. Stays (S.failures writer.old) (S.failures writer.new))
        (λ fault. ExportBlames fault (S.failures writer.old) (S.failures writer.new)) }
{
    if !can_stand(front) {
        return Err(ExportFault::Front);
    }
    let Some(node) = find_key(tree, path) else {
        return Err(ExportFault::NoKey);
    };
    // The root's name is one of a key, as this call's contract says.
    let _node = tree.root();
    let root = root_of(tree, front);
    match unwritable_at(alloc, tree, root, path, node) {
        Ok(None) => {}
        Ok(Some(key)) => return Err(ExportFault::Name(key)),
        Err(_) => return Err(ExportFault::Stopped(DumpFault::Memory)),
    }
    match write_file(alloc, is_utf8, tree, root, path, node, writer) {
        Ok(()) => Ok(()),
        Err(fault) => Err(ExportFault::Stopped(fault)),
    }
}
