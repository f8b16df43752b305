//! A key looked up and listed.
ghost use Rattle.std.specs.Prelude.{OnOk, IfErr, MatchResult};
ghost use Rattle.std.specs.Io.KnownBytes.{Appends};
ghost use Rattle.reg_heap.specs.Paths.{Path};
ghost use Rattle.reg_tree.specs.TreeKeys.{IsAt, IsThere};
ghost use Rattle.reg_text.specs.Failures.{Stays};
ghost use Rattle.reg_tree_text.specs.DumpFronts.{IsStopped, IsBlamed};
ghost use Rattle.reg_tree_text.specs.PathBlames.{PathBlames};
ghost use Rattle.reg_tree_text.specs.PathQueries.{key_at, listed, IsKeyFound, IsTold, ListStops};

use crate::{DumpFault, PathFault, list, list_tree};
use reg_names::check_path;
use reg_text::Sink;
use reg_tree::{Node, Tree};
use std::alloc::Global;

/// The key that a path leads to from the root, names folded; `None` where there is none, or where the text is no path.
pub fn find_key(tree: &Tree, path: &[u8]) -> Option<Node>
    ensures { IsKeyFound tree.now path.now result }
{
    if check_path(path).is_err() {
        return None;
    }
    tree.resolve(tree.root(), path)
}

/// Lists a key, with all that is below it or without.
fn list_node<W: Sink>(
    alloc: Global,
    tree: &Tree,
    node: Node,
    is_whole: bool,
    writer: &mut W,
) -> Result<(), DumpFault>
    requires { IsThere tree.now node }
    ensures ok { (p : Path) → IsAt tree.now p node →
        OnOk result (Appends (W.contents writer.old) (W.contents writer.new) (listed tree.now.tree is_whole p)) }
    ensures err { (p : Path) → IsAt tree.now p node →
        IfErr result (λ fault. IsStopped (W.contents writer.old) (W.contents writer.new) (listed tree.now.tree is_whole p) fault) }
    ensures flushed { OnOk result (W.is_flushed writer.new) }
    ensures failures { MatchResult result (λ _. Stays (W.failures writer.old) (W.failures writer.new))
        (λ fault. IsBlamed fault (W.failures writer.old) (W.failures writer.new)) }
{
    if is_whole {
        list_tree(alloc, tree, node, writer)
    } else {
        list(alloc, tree, node, writer)
    }
}

/// Lists the key that a path leads to from the root, names folded: its values and the keys right below it, or with `is_whole` all keys
/// below it and their values ([`crate::list`], [`crate::list_tree`]). The empty path is the root's.
///
/// `NoKey` where the text is no path or no key is there, and then nothing was written; else `Stopped` where a write or memory failed,
/// after a front of the text. Of the writer's calls just one failed where a write is told, and else none.
pub fn list_at<W: Sink>(
    alloc: Global,
    tree: &Tree,
    path: &[u8],
    is_whole: bool,
    writer: &mut W,
) -> Result<(), PathFault>
    ensures ok { OnOk result (IsTold (key_at tree.now.tree path.now) (listed tree.now.tree is_whole) (W.contents writer.old) (W.contents writer.new)) }
    ensures err { IfErr result (λ fault. ListStops fault tree.now.tree path.now is_whole (W.contents writer.old) (W.contents writer.new)) }
    ensures flushed { OnOk result (W.is_flushed writer.new) }
    ensures failures { MatchResult result (λ _. Stays (W.failures writer.old) (W.failures writer.new))
        (λ fault. PathBlames fault (W.failures writer.old) (W.failures writer.new)) }
{
    let Some(node) = find_key(tree, path) else {
        return Err(PathFault::NoKey);
    };
    match list_node(alloc, tree, node, is_whole, writer) {
        Ok(()) => Ok(()),
        Err(fault) => Err(PathFault::Stopped(fault)),
    }
}
