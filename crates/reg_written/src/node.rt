//! A key node by itself.
//!
//! Suhanov, Windows registry file format specification, section "Key node".

ghost use Rattle.std.specs.Prelude.{◌≡◌, ◌≤◌, length};
ghost use Rattle.reg_written.specs.Internal.KeyTests.{is_plain_node as is_plain, has_flags as flags_are, has_no_offset, has_fit_offsets, has_fit_counts, is_node};

use crate::content::word_at;
use reg_heap::limits::{NONE, SUBKEYS_LIMIT};
use reg_names::check_key_name;
use reg_records::{KeyFields, KeyNode};

/// The flags that tell a key node of a root from others, and those that no key node of this project has.
const KIND_FLAGS: u16 = 0x67;

/// Of these flags those of a root: no delete of the root (0x04), and a name of one byte a character (0x20).
const ROOT_FLAGS: u16 = 0x24;

/// Of these flags those of another key.
const KEY_FLAGS: u16 = 0x20;

/// Whether the parts of a key node of which nothing is read are as they are written.
fn is_plain_node(content: &[u8]) -> bool
    requires { 76 ≤ length content.now }
    ensures { result ≡ is_plain content.now }
{
    word_at(content, 12) == 0
        && word_at(content, 24) == 0
        && word_at(content, 32) == NONE
        && word_at(content, 68) == 0
}

/// Whether a key node has the flags of a root, which has no parent, or of another key.
fn has_flags(fields: &KeyFields, is_root: bool) -> bool
    ensures { result ≡ flags_are is_root fields.now }
{
    let flags = if is_root { ROOT_FLAGS } else { KEY_FLAGS };
    fields.flags & KIND_FLAGS == flags && (!is_root || fields.parent == NONE)
}

/// Whether an offset is 0xFFFFFFFF where there is nothing at it.
fn is_offset_of(count: u32, offset: u32) -> bool
    ensures { result ≡ has_no_offset count offset }
{
    count != 0 || offset == NONE
}

/// Whether the offsets of a class, of values and of subkeys are 0xFFFFFFFF where a key has none.
fn has_offsets(fields: &KeyFields) -> bool
    ensures { result ≡ has_fit_offsets fields.now }
{
    is_offset_of(u32::from(fields.class_length), fields.class)
        && is_offset_of(fields.values, fields.values_list)
        && is_offset_of(fields.subkeys, fields.subkeys_list)
}

/// Whether a key has at most 60,000 subkeys, and 0 in the upper half of the field of their longest name.
fn has_counts(fields: &KeyFields) -> bool
    ensures { result ≡ has_fit_counts fields.now }
{
    fields.subkeys <= SUBKEYS_LIMIT && fields.largest_subkey_name < 65536
}

/// Whether a key node, told with what its cell holds, is as this project writes it.
pub fn is_written_node(content: &[u8], key: &KeyNode<'_>, is_root: bool) -> bool
    requires { 76 ≤ length content.now }
    ensures { result ≡ is_node is_root content.now (record { fields = key.now.fields; name = key.now.name.now }) }
{
    is_plain_node(content)
        && has_flags(&key.fields, is_root)
        && check_key_name(key.name).is_ok()
        && has_offsets(&key.fields)
        && has_counts(&key.fields)
}
