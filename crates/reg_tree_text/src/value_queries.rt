//! A value looked up and told.
ghost use Rattle.std.specs.Prelude.{◌≡◌, ◌≢◌, ◌<◌, ℕ, List, length, slice_get, Some, OnOk, IfOk, IfErr, MatchResult};
ghost use Rattle.std.specs.Io.KnownBytes.{Appends};
ghost use Rattle.reg_heap.specs.Paths.{Path, Member};
ghost use Rattle.reg_heap.specs.Edits.{values_at};
ghost use Rattle.reg_tree.specs.TreeKeys.{IsAt};
ghost use Rattle.reg_text.specs.Failures.{Stays};
ghost use Rattle.reg_tree_text.specs.declared.fault.DumpFault.{DumpFault};
ghost use Rattle.reg_tree_text.specs.DumpFronts.{IsStopped, IsBlamed};
ghost use Rattle.reg_tree_text.specs.PathBlames.{PathBlames};
ghost use Rattle.reg_tree_text.specs.PathQueries.{value_at, shown as shown_text, IsTold, GetStops};

use crate::key_queries::find_key;
use crate::{DumpFault, PathFault, value_text};
use reg_text::{Sink, write_counted};
use reg_tree::{Node, Tree};
use std::alloc::{AllocError, Global};

/// How a value of that type and with these bytes is told.
fn told(alloc: Global, kind: u32, bytes: Vec<u8>, is_raw: bool) -> Result<Vec<u8>, AllocError>
    ensures { (name : List ℕ) →
        IfOk result (λ text. text.items ≡ shown_text is_raw (record { name = name; kind = kind; bytes = bytes.items })) }
{
    if is_raw {
        return Ok(bytes);
    }
    let mut text = value_text(alloc, kind, &bytes)?;
    text.push_str("\n")?;
    Ok(text.into_bytes())
}

/// How the value of a key at an index is told.
fn shown(
    alloc: Global,
    tree: &Tree,
    node: Node,
    index: u32,
    is_raw: bool,
) -> Result<Vec<u8>, AllocError>
    requires { (p : Path) × IsAt tree.now p node × (index < length (values_at tree.now.tree p)) }
    ensures { (p : Path) → IsAt tree.now p node → (value : Member) → slice_get (values_at tree.now.tree p) index ≡ Some value →
        IfOk result (λ bytes. bytes.items ≡ shown_text is_raw value) }
{
    let bytes = tree.value_bytes(alloc, node, index)?;
    let Some(value) = tree.value(node, index) else {
        unreachable!()
    };
    told(alloc, value.kind, bytes, is_raw)
}

/// Writes some bytes and has the writer pass them on.
fn write_whole<W: Sink>(writer: &mut W, bytes: &[u8]) -> Result<(), DumpFault>
    ensures ok { OnOk result (Appends (W.contents writer.old) (W.contents writer.new) bytes.now) }
    ensures err { IfErr result (λ fault. IsStopped (W.contents writer.old) (W.contents writer.new) bytes.now fault) }
    ensures ample { IfErr result (λ fault. fault ≢ DumpFault.Memory) }
    ensures flushed { OnOk result (W.is_flushed writer.new) }
    ensures failures { MatchResult result (λ _. Stays (W.failures writer.old) (W.failures writer.new))
        (λ fault. IsBlamed fault (W.failures writer.old) (W.failures writer.new)) }
{
    let taken = write_counted(writer, bytes);
    let written = taken as u64;
    if taken < bytes.len() {
        return Err(DumpFault::Write { written });
    }
    match writer.pass_on() {
        Ok(()) => Ok(()),
        Err(_) => Err(DumpFault::Write { written }),
    }
}

/// Tells a value of that type and with these bytes: its data as a line ([`crate::value_text`]), or with `is_raw` its bytes.
///
/// `Memory` where it lacks, and then nothing was written; `Write` where a write failed, after so many bytes of the text. Of the writer's
/// calls just one failed where a write is told, and else none.
pub fn tell_value<W: Sink>(
    alloc: Global,
    kind: u32,
    bytes: Vec<u8>,
    is_raw: bool,
    writer: &mut W,
) -> Result<(), DumpFault>
    ensures ok { (name : List ℕ) → OnOk result (Appends (W.contents writer.old) (W.contents writer.new)
        (shown_text is_raw (record { name = name; kind = kind; bytes = bytes.items }))) }
    ensures err { (name : List ℕ) → IfErr result (λ fault. IsStopped (W.contents writer.old) (W.contents writer.new)
        (shown_text is_raw (record { name = name; kind = kind; bytes = bytes.items })) fault) }
    ensures unwritten { IfErr result (λ fault. fault ≡ DumpFault.Memory → W.contents writer.new ≡ W.contents writer.old) }
    ensures flushed { OnOk result (W.is_flushed writer.new) }
    ensures failures { MatchResult result (λ _. Stays (W.failures writer.old) (W.failures writer.new))
        (λ fault. IsBlamed fault (W.failures writer.old) (W.failures writer.new)) }
{
    let Ok(text) = told(alloc, kind, bytes, is_raw) else {
        return Err(DumpFault::Memory);
    };
    write_whole(writer, &text)
}

/// Tells the value of a name, folded, of the key that a path leads to from the root: its data as a line ([`crate::value_text`]),
/// or with `is_raw` its bytes. The empty name is that of the key's default value.
///
/// `NoKey` where the text is no path or no key is there, else `NoValue` where the key has none of that name, and then nothing was
/// written; else `Stopped` where a write or memory failed, after a front of the text. Of the writer's calls just one failed where a
/// write is told, and else none.
pub fn get_at<W: Sink>(
    alloc: Global,
    tree: &Tree,
    path: &[u8],
    name: &[u8],
    is_raw: bool,
    writer: &mut W,
) -> Result<(), PathFault>
    ensures ok { OnOk result (IsTold (value_at tree.now.tree path.now name.now) (shown_text is_raw) (W.contents writer.old) (W.contents writer.new)) }
    ensures err { IfErr result (λ fault. GetStops fault tree.now.tree path.now name.now is_raw (W.contents writer.old) (W.contents writer.new)) }
    ensures flushed { OnOk result (W.is_flushed writer.new) }
    ensures failures { MatchResult result (λ _. Stays (W.failures writer.old) (W.failures writer.new))
        (λ fault. PathBlames fault (W.failures writer.old) (W.failures writer.new)) }
{
    let Some(node) = find_key(tree, path) else {
        return Err(PathFault::NoKey);
    };
    let Some(index) = tree.value_index(node, name) else {
        return Err(PathFault::NoValue);
    };
    let bytes = match shown(alloc, tree, node, index, is_raw) {
        Ok(bytes) => bytes,
        Err(_) => return Err(PathFault::Stopped(DumpFault::Memory)),
    };
    match write_whole(writer, &bytes) {
        Ok(()) => Ok(()),
        Err(fault) => Err(PathFault::Stopped(fault)),
    }
}
