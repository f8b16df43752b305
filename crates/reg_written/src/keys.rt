//! Keys as this project writes them.

ghost use Rattle.std.specs.Prelude.{◌≡◌, ◌↔◌, ◌≤◌, IsTrue, IfOk, length, map};
ghost use Rattle.std.specs.List.{AllByRecursion};
ghost use Rattle.reg_arena.specs.Cells.{cell_at};
ghost use Rattle.reg_shape.specs.Whole.{IsWritten};
ghost use Rattle.reg_written.specs.ReadKeys.{IsRead, security_in};
ghost use Rattle.reg_written.specs.Internal.KeyCells.{HasValues, HasSubkeys};
ghost use Rattle.reg_written.specs.Internal.KeyTests.{is_key};

use crate::content::content;
use crate::node::is_written_node;
use crate::subkeys::are_written_subkeys;
use crate::values::are_written_values;
use reg_records::{KeyNode, read_nk};
use std::alloc::{AllocError, Global};

/// Whether a key, told with what its key node's cell holds, is as this project writes it, its values and its lists of subkeys with it,
/// and its subkeys' nodes in what they say of it.
fn is_written(bins: &[u8], root: u32, offset: u32, node: &[u8], key: &KeyNode<'_>) -> bool
    requires long { 76 ≤ length node.now }
    requires values { HasValues (cell_at bins.now) key.now.fields }
    requires subkeys { HasSubkeys (cell_at bins.now) key.now.fields }
    ensures { result ≡ is_key (cell_at bins.now) root offset node.now (record { fields = key.now.fields; name = key.now.name.now }) }
{
    is_written_node(node, key, offset == root)
        && are_written_values(bins, &key.fields)
        && are_written_subkeys(bins, offset, &key.fields)
}

/// The same of the key at an offset, which was read.
fn is_written_at(bins: &[u8], root: u32, offset: u32) -> bool
    requires { IsRead (cell_at bins.now) offset }
    ensures { IsTrue result ↔ IsWritten (cell_at bins.now) root offset }
{
    let node = content(bins, offset);
    match read_nk(node) {
        Ok(key) => is_written(bins, root, offset, node, &key),
        Err(_) => false,
    }
}

/// Whether each of these keys, which were read, is as this project writes it. `root` is the offset of the root's key node.
pub fn are_written(bins: &[u8], root: u32, keys: &[u32]) -> bool
    requires { AllByRecursion (IsRead (cell_at bins.now)) keys.now }
    ensures { IsTrue result ↔ AllByRecursion (IsWritten (cell_at bins.now) root) keys.now }
{
    for key in keys {
        if !is_written_at(bins, root, *key) {
            return false;
        }
    }
    true
}

/// The security of a key that was read, by what its key node's cell holds.
fn security_of(bins: &[u8], key: u32) -> u32
    requires { IsRead (cell_at bins.now) key }
    ensures { result ≡ security_in (cell_at bins.now) key }
{
    match read_nk(content(bins, key)) {
        Ok(node) => node.fields.security,
        Err(_) => 0,
    }
}

/// The offsets of the securities of keys that were read, one for each key. It fails where memory runs out.
pub fn securities_of(alloc: Global, bins: &[u8], keys: &[u32]) -> Result<Vec<u32>, AllocError>
    requires { AllByRecursion (IsRead (cell_at bins.now)) keys.now }
    ensures { IfOk result (λ securities. securities.items ≡ map (security_in (cell_at bins.now)) keys.now) }
{
    let mut securities = Vec::with_capacity(alloc, keys.len())?;
    for key in keys {
        securities.push(security_of(bins, *key))?;
    }
    Ok(securities)
}
