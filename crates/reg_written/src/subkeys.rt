//! A key's subkeys.
//!
//! Suhanov, Windows registry file format specification, section "Subkeys list".

ghost use Rattle.std.specs.Prelude.{◌≡◌, ◌+◌, ◌*◌, ◌≤◌, ◌&&◌, nat_lt, length};
ghost use Rattle.std.specs.List.{AllByRecursion};
ghost use Rattle.std.specs.Option.{option_map};
ghost use Rattle.reg_arena.specs.Cells.{cell_at};
ghost use Rattle.reg_records.specs.declared.lists.ListForm.{ListForm};
ghost use Rattle.reg_records.specs.SubkeyLists.{list_of, entries_as};
ghost use Rattle.reg_written.specs.Internal.KeyTests.{is_behind as comes_behind, is_child, has_subkeys};
ghost use Rattle.reg_written.specs.Internal.KeyTests.{with_entry as with_one, with_entries as with_all, with_list_in, with_lists as with_all_lists, with_index as with_its_index};
ghost use Rattle.reg_written.specs.Internal.KeyCells.{HasKey, HasKeys, HasList, HasIndex, HasSubkeys};
ghost use Rattle.reg_written.specs.Internal.ShownSiblings.{shown, shown_in, is_list_head};

use crate::content::content;
use reg_heap::limits::LEAF_LIMIT;
use reg_names::{name_hash, name_order};
use reg_records::{
    KeyFields, KeyNode, ListEntry, ListForm, ListHead, entry_at, read_list, read_nk,
};
use std::cmp::Ordering;

/// The subkeys of a key that were looked at.
#[derive(Clone, Copy)]
pub struct Siblings<'a> {
    /// How many are still to come.
    left: u32,
    /// The name of the last one, if there was one.
    last: Option<&'a [u8]>,
}

/// Whether a name comes after the last one.
fn is_behind(last: Option<&[u8]>, name: &[u8]) -> bool
    ensures { result ≡ comes_behind (option_map (λ n. n.now) last.entry) name.now }
{
    match last {
        Some(last) => name_order(last, name) == Ordering::Less,
        None => true,
    }
}

/// Whether a key node is what its parent and the entry of a list say of it.
fn is_child_of(parent: u32, fields: &KeyFields, entry: ListEntry, child: &KeyNode<'_>) -> bool
    ensures { result ≡ is_child parent fields.now entry (record { fields = child.now.fields; name = child.now.name.now }) }
{
    child.fields.parent == parent
        && name_hash(child.name) == entry.hint
        && child.name.len() <= (fields.largest_subkey_name % 65536 / 2) as usize
        && u32::from(child.fields.class_length) <= fields.largest_subkey_class
}

/// Whether a key node is what its parent and the entry of a list say of it, and the next one of the subkeys that are still to come.
fn is_next(
    parent: u32,
    fields: &KeyFields,
    before: Siblings<'_>,
    entry: ListEntry,
    child: &KeyNode<'_>,
) -> bool
    ensures { result ≡ (nat_lt 0 before.entry.left && (comes_behind (shown before.entry).last child.now.name.now
        && is_child parent fields.now entry (record { fields = child.now.fields; name = child.now.name.now }))) }
{
    before.left > 0
        && is_behind(before.last, child.name)
        && is_child_of(parent, fields, entry, child)
}

/// The subkeys with the one of an entry; `None` where it isn't as its parent says, or doesn't come after the last one.
fn with_entry<'a>(
    bins: &'a [u8],
    parent: u32,
    fields: &KeyFields,
    before: Siblings<'a>,
    entry: ListEntry,
) -> Option<Siblings<'a>>
    requires { HasKey (cell_at bins.now) entry }
    ensures { shown_in result ≡ with_one (cell_at bins.now) parent fields.now (shown before.entry) entry }
{
    let Ok(child) = read_nk(content(bins, entry.offset)) else {
        return None;
    };
    if !is_next(parent, fields, before, entry, &child) {
        return None;
    }
    Some(Siblings {
        left: before.left - 1,
        last: Some(child.name),
    })
}

/// The subkeys with those of so many entries of an `lh`, one after another.
fn with_entries<'a>(
    bins: &'a [u8],
    parent: u32,
    fields: &KeyFields,
    before: Siblings<'a>,
    list: &[u8],
    count: u16,
) -> Option<Siblings<'a>>
    requires long { 4 + 8 * count ≤ length list.now }
    requires keys { AllByRecursion (HasKey (cell_at bins.now)) (entries_as ListForm.HashLeaf count 4 list.now) }
    ensures { shown_in result ≡ with_all (cell_at bins.now) parent fields.now (entries_as ListForm.HashLeaf count 4 list.now) (shown before.entry) }
{
    let mut siblings = before;
    for index in 0..count {
        let entry = entry_at(list, ListForm::HashLeaf, index);
        siblings = with_entry(bins, parent, fields, siblings, entry)?;
    }
    Some(siblings)
}

/// Whether a list is an `lh` of 1 to 500 entries.
fn is_written_list(head: ListHead) -> bool
    ensures { result ≡ is_list_head head }
{
    head.form == ListForm::HashLeaf && head.count > 0 && u32::from(head.count) <= LEAF_LIMIT
}

/// The subkeys with those of a list of keys; `None` where it isn't as this project writes it.
fn with_list<'a>(
    bins: &'a [u8],
    parent: u32,
    fields: &KeyFields,
    before: Siblings<'a>,
    list: &[u8],
) -> Option<Siblings<'a>>
    requires { HasKeys (cell_at bins.now) list.now }
    ensures { shown_in result ≡ with_list_in (cell_at bins.now) parent fields.now (list_of list.now) (shown before.entry) }
{
    let Ok(head) = read_list(list) else {
        return None;
    };
    if !is_written_list(head) {
        return None;
    }
    with_entries(bins, parent, fields, before, list, head.count)
}

/// The subkeys with those of so many lists of an index root, one after another; `None` where one isn't as this project writes it.
fn with_lists<'a>(
    bins: &'a [u8],
    parent: u32,
    fields: &KeyFields,
    before: Siblings<'a>,
    root: &[u8],
    count: u16,
) -> Option<Siblings<'a>>
    requires long { 4 + 4 * count ≤ length root.now }
    requires lists { AllByRecursion (HasList (cell_at bins.now)) (entries_as ListForm.IndexRoot count 4 root.now) }
    ensures { shown_in result ≡ with_all_lists (cell_at bins.now) parent fields.now (entries_as ListForm.IndexRoot count 4 root.now) (shown before.entry) }
{
    let mut siblings = before;
    for index in 0..count {
        let entry = entry_at(root, ListForm::IndexRoot, index);
        let list = content(bins, entry.offset);
        siblings = with_list(bins, parent, fields, siblings, list)?;
    }
    Some(siblings)
}

/// The subkeys of a key's list, which is a list of keys or an index root of two or more; `None` where one isn't as this project writes
/// it.
fn with_index<'a>(
    bins: &'a [u8],
    parent: u32,
    fields: &KeyFields,
    before: Siblings<'a>,
    list: &[u8],
) -> Option<Siblings<'a>>
    requires { HasIndex (cell_at bins.now) list.now }
    ensures { shown_in result ≡ with_its_index (cell_at bins.now) parent fields.now (list_of list.now) (shown before.entry) }
{
    let Ok(head) = read_list(list) else {
        return None;
    };
    match head.form {
        ListForm::IndexRoot => {
            if head.count < 2 {
                return None;
            }
            with_lists(bins, parent, fields, before, list, head.count)
        }
        ListForm::IndexLeaf | ListForm::FastLeaf | ListForm::HashLeaf => {
            with_list(bins, parent, fields, before, list)
        }
    }
}

/// Whether a key has as many subkeys as it says, and each, with the lists that name it, is as this project writes it.
pub fn are_written_subkeys(bins: &[u8], parent: u32, fields: &KeyFields) -> bool
    requires { HasSubkeys (cell_at bins.now) fields.now }
    ensures { result ≡ has_subkeys (cell_at bins.now) parent fields.now }
{
    if fields.subkeys == 0 {
        return true;
    }
    let none = Siblings {
        left: fields.subkeys,
        last: None,
    };
    let list = content(bins, fields.subkeys_list);
    match with_index(bins, parent, fields, none, list) {
        Some(siblings) => siblings.left == 0,
        None => false,
    }
}
