//! All keys and values of a tree that a pattern finds.
ghost use Rattle.std.specs.Prelude.{◌≡◌, ◌<◌, ◌+◌, nat_lt, flat_map, length, slice_get, string_bytes, Some, OnOk, IfOk, IfErr, MatchResult};
ghost use Rattle.std.specs.FinMap.{get};
ghost use Rattle.std.specs.Io.KnownBytes.{Appends};
ghost use Rattle.reg_names.specs.Names.{text_of};
ghost use Rattle.reg_text.specs.Failures.{Stays};
ghost use Rattle.reg_heap.specs.Paths.{Path, Member};
ghost use Rattle.reg_heap.specs.Edits.{values_at};
ghost use Rattle.reg_tree.specs.TreeKeys.{IsAt, IsThere};
ghost use Rattle.reg_tree_text.specs.DumpTexts.{Told};
ghost use Rattle.reg_tree_text.specs.DumpFronts.{IsStopped, IsBlamed};
ghost use Rattle.reg_tree_text.specs.Internal.Gathered.{Puts};
ghost use Rattle.reg_find.specs.Findings.{key_found, value_found, found_lines, found_text, is_found_in};

use crate::line::{put_key_line, put_value_line};
use crate::search::{is_key_match, is_value_match};
use crate::{Pattern, Scope};
use reg_text::{Output, Sink};
use reg_tree::Tree;
use reg_tree_text::{DumpFault, Walk, finish};
use std::alloc::Global;

/// Tells the line of the key at which a walk stands, where it is found.
fn put_name<P: Pattern, W: Sink>(
    output: &mut Output<String>,
    writer: &mut W,
    tree: &Tree,
    walk: &Walk,
    pattern: &mut P,
    scope: Scope,
) -> Result<(), DumpFault>
    requires { IsThere tree.now walk.now.node }
    ensures puts { (p : Path) → IsAt tree.now p walk.now.node → (told : Told) → get tree.now.tree p ≡ Some told.key → walk.now.path.items ≡ text_of told.names →
        Puts output.old (W.contents writer.old, W.failures writer.old) output.new (W.contents writer.new, W.failures writer.new)
        (key_found (P.matches pattern.old) scope told) result }
    ensures same { P.matches pattern.new ≡ P.matches pattern.old }
{
    if !is_key_match(pattern, scope, tree.name(walk.node), &walk.path) {
        return Ok(());
    }
    put_key_line(output, writer, &walk.path)
}

/// Tells the line of the value at an index of the key at which a walk stands, where it is found.
fn put_value<P: Pattern, W: Sink>(
    output: &mut Output<String>,
    writer: &mut W,
    alloc: Global,
    tree: &Tree,
    walk: &Walk,
    index: u32,
    pattern: &mut P,
    scope: Scope,
) -> Result<(), DumpFault>
    requires { (p : Path) × IsAt tree.now p walk.now.node × (index < length (values_at tree.now.tree p)) }
    ensures puts { (p : Path) → IsAt tree.now p walk.now.node → (member : Member) → slice_get (values_at tree.now.tree p) index ≡ Some member →
        Puts output.old (W.contents writer.old, W.failures writer.old) output.new (W.contents writer.new, W.failures writer.new)
        (value_found (P.matches pattern.old) scope walk.now.path.items member) result }
    ensures same { P.matches pattern.new ≡ P.matches pattern.old }
{
    let Some(value) = tree.value(walk.node, index) else {
        unreachable!()
    };
    if !is_value_match(alloc, tree, walk.node, index, value, pattern, scope)? {
        return Ok(());
    }
    put_value_line(output, writer, &walk.path, value)
}

/// Tells the lines of the values that are found of the key at which a walk stands, in their order.
fn put_values<P: Pattern, W: Sink>(
    output: &mut Output<String>,
    writer: &mut W,
    alloc: Global,
    tree: &Tree,
    walk: &Walk,
    pattern: &mut P,
    scope: Scope,
) -> Result<(), DumpFault>
    requires { IsThere tree.now walk.now.node }
    ensures puts { (p : Path) → IsAt tree.now p walk.now.node →
        Puts output.old (W.contents writer.old, W.failures writer.old) output.new (W.contents writer.new, W.failures writer.new)
        (flat_map (value_found (P.matches pattern.old) scope walk.now.path.items) (values_at tree.now.tree p)) result }
    ensures same { P.matches pattern.new ≡ P.matches pattern.old }
{
    for index in 0..tree.values(walk.node) {
        put_value(output, writer, alloc, tree, walk, index, pattern, scope)?;
    }
    Ok(())
}

/// Tells the lines of what is found of the key at which a walk stands: its own, and those of its values.
fn put_key<P: Pattern, W: Sink>(
    output: &mut Output<String>,
    writer: &mut W,
    alloc: Global,
    tree: &Tree,
    walk: &Walk,
    pattern: &mut P,
    scope: Scope,
) -> Result<(), DumpFault>
    requires { IsThere tree.now walk.now.node }
    ensures puts { (p : Path) → IsAt tree.now p walk.now.node → (told : Told) → get tree.now.tree p ≡ Some told.key → walk.now.path.items ≡ text_of told.names →
        Puts output.old (W.contents writer.old, W.failures writer.old) output.new (W.contents writer.new, W.failures writer.new)
        (found_lines (P.matches pattern.old) scope told) result }
    ensures same { P.matches pattern.new ≡ P.matches pattern.old }
{
    put_name(output, writer, tree, walk, pattern, scope)?;
    put_values(output, writer, alloc, tree, walk, pattern, scope)
}

/// Tells the lines of all that is found.
fn put_tree<P: Pattern, W: Sink>(
    output: &mut Output<String>,
    writer: &mut W,
    alloc: Global,
    tree: &Tree,
    pattern: &mut P,
    scope: Scope,
) -> Result<(), DumpFault>
    ensures { Puts output.old (W.contents writer.old, W.failures writer.old) output.new (W.contents writer.new, W.failures writer.new)
        (found_text (P.matches pattern.old) scope tree.now.tree) result }
{
    let mut walk = Walk::new(alloc, tree.root());
    // No tree has so many keys: the bound only shows that the walk ends.
    for _key in 0..u64::MAX {
        put_key(output, writer, alloc, tree, &walk, pattern, scope)?;
        if !walk.advance(tree)? {
            return Ok(());
        }
    }
    Err(DumpFault::Memory)
}

/// Whether anything was told.
fn has_told(output: &Output<String>) -> bool
    ensures { result ≡ nat_lt 0 (output.now.written + length (string_bytes output.now.gathered)) }
{
    output.written > 0 || !output.gathered.is_empty()
}

/// Finds a pattern in a tree, in the order of a dump: of each key a line with its path where its own name or that path is searched and
/// matches, and behind it one for each of its values of which the name, the data told as a line, or a text that the data hold, are searched
/// and match, once, whichever did. The text goes to the writer while the keys are gone over, some 64 KB at a time, and at the end the
/// writer is flushed. Answers whether anything was found.
///
/// `Write` only where a write or the flush failed, after so many bytes of the text, and nothing more is asked of the writer then;
/// `Memory` only where none failed, after some front of the text, also where 64 bits can't count the keys, though no tree has so many.
pub fn find<P: Pattern, S: Sink>(
    alloc: Global,
    tree: &Tree,
    pattern: &mut P,
    scope: Scope,
    writer: &mut S,
) -> Result<bool, DumpFault>
    ensures ok { OnOk result (Appends (S.contents writer.old) (S.contents writer.new) (found_text (P.matches pattern.old) scope tree.now.tree)) }
    ensures found { IfOk result (λ is_found. is_found ≡ is_found_in (P.matches pattern.old) scope tree.now.tree) }
    ensures err { IfErr result (λ fault. IsStopped (S.contents writer.old) (S.contents writer.new) (found_text (P.matches pattern.old) scope tree.now.tree) fault) }
    ensures flushed { OnOk result (S.is_flushed writer.new) }
    ensures failures { MatchResult result (λ _. Stays (S.failures writer.old) (S.failures writer.new))
        (λ fault. IsBlamed fault (S.failures writer.old) (S.failures writer.new)) }
{
    let mut output = Output::new(alloc);
    put_tree(&mut output, writer, alloc, tree, pattern, scope)?;
    let is_found = has_told(&output);
    match finish(&mut output, writer) {
        Ok(()) => Ok(is_found),
        Err(fault) => Err(fault),
    }
}
