//! Whether a pattern matches a text of a key or of a value.
ghost use Rattle.std.specs.Prelude.{◌≡◌, ◌&&◌, ◌<◌, length, slice_get, Some, IfOk};
ghost use Rattle.reg_heap.specs.Paths.{Path, Member};
ghost use Rattle.reg_heap.specs.Edits.{values_at};
ghost use Rattle.reg_tree.specs.TreeKeys.{IsAt};
ghost use Rattle.reg_values.specs.ValueLists.{Tells};
ghost use Rattle.reg_tree_text.specs.ValueTexts.{value_told};
ghost use Rattle.reg_find.specs.Findings.{is_data_found, is_key_found, is_value_found};

use crate::wide::is_match_held;
use crate::{Pattern, Scope};
use reg_tree::{Node, Tree};
use reg_tree_text::value_text;
use reg_values::Value;
use std::alloc::{AllocError, Global};

/// Whether a text is searched, and matches.
pub fn is_match_in<P: Pattern>(pattern: &mut P, is_searched: bool, text: &[u8]) -> bool
    ensures answer { result ≡ (is_searched && P.matches pattern.old text.now) }
    ensures same { P.matches pattern.new ≡ P.matches pattern.old }
{
    if !is_searched {
        return false;
    }
    pattern.is_match(text)
}

/// Whether a key is found, by its own name or by its path.
pub fn is_key_match<P: Pattern>(pattern: &mut P, scope: Scope, name: &[u8], path: &[u8]) -> bool
    ensures answer { result ≡ is_key_found (P.matches pattern.old) scope name.now path.now }
    ensures same { P.matches pattern.new ≡ P.matches pattern.old }
{
    if is_match_in(pattern, scope.keys, name) {
        return true;
    }
    is_match_in(pattern, scope.paths, path)
}

/// Whether the data of a value are searched and match, told as a line.
fn is_text_match<P: Pattern>(
    alloc: Global,
    pattern: &mut P,
    is_searched: bool,
    kind: u32,
    bytes: &[u8],
) -> Result<bool, AllocError>
    ensures answer { IfOk result (λ found. found ≡ (is_searched && P.matches pattern.old (value_told kind bytes.now))) }
    ensures same { P.matches pattern.new ≡ P.matches pattern.old }
{
    if !is_searched {
        return Ok(false);
    }
    let text = value_text(alloc, kind, bytes)?;
    Ok(pattern.is_match(text.as_bytes()))
}

/// Whether the data of a value are found, told as a line or as bytes that hold a text.
fn is_bytes_match<P: Pattern>(
    alloc: Global,
    pattern: &mut P,
    scope: Scope,
    kind: u32,
    bytes: &[u8],
) -> Result<bool, AllocError>
    ensures answer { IfOk result (λ found. found ≡ is_data_found (P.matches pattern.old) scope kind bytes.now) }
    ensures same { P.matches pattern.new ≡ P.matches pattern.old }
{
    if is_text_match(alloc, pattern, scope.texts, kind, bytes)? {
        return Ok(true);
    }
    is_match_held(alloc, pattern, scope.bytes, bytes)
}

/// Whether the data of the value of a key at an index are found.
fn is_data_match<P: Pattern>(
    alloc: Global,
    tree: &Tree,
    node: Node,
    index: u32,
    kind: u32,
    pattern: &mut P,
    scope: Scope,
) -> Result<bool, AllocError>
    requires { (p : Path) × IsAt tree.now p node × (index < length (values_at tree.now.tree p)) }
    ensures answer { (p : Path) → IsAt tree.now p node → (member : Member) → slice_get (values_at tree.now.tree p) index ≡ Some member →
        kind ≡ member.kind → IfOk result (λ found. found ≡ is_data_found (P.matches pattern.old) scope member.kind member.bytes) }
    ensures same { P.matches pattern.new ≡ P.matches pattern.old }
{
    let bytes = tree.value_bytes(alloc, node, index)?;
    is_bytes_match(alloc, pattern, scope, kind, &bytes)
}

/// Whether a value of a key at an index is found. Its data are read only where they are searched and its name wasn't found.
pub fn is_value_match<P: Pattern>(
    alloc: Global,
    tree: &Tree,
    node: Node,
    index: u32,
    value: Value<'_>,
    pattern: &mut P,
    scope: Scope,
) -> Result<bool, AllocError>
    requires { (p : Path) × IsAt tree.now p node × (index < length (values_at tree.now.tree p)) }
    ensures answer { (p : Path) → IsAt tree.now p node → (member : Member) → slice_get (values_at tree.now.tree p) index ≡ Some member →
        Tells member value.entry.name.now value.entry.kind value.entry.size →
        IfOk result (λ found. found ≡ is_value_found (P.matches pattern.old) scope member) }
    ensures same { P.matches pattern.new ≡ P.matches pattern.old }
{
    if is_match_in(pattern, scope.names, value.name) {
        return Ok(true);
    }
    if !(scope.texts | scope.bytes) {
        return Ok(false);
    }
    is_data_match(alloc, tree, node, index, value.kind, pattern, scope)
}
