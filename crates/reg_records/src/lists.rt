//! Lists of subkeys.
//!
//! Suhanov, Windows registry file format specification, section "Subkeys list".

ghost use Rattle.std.specs.Prelude.{◌≡◌, ℕ, ◌+◌, ◌*◌, ◌<◌, ◌≤◌, ◌^◌, ◌++◌, length, MatchResult, IfOk, slice_get, Some, None};
ghost use Rattle.byteorder.specs.Endian.{little_bytes};
ghost use Rattle.reg_arena.specs.Arena.{heap_of};
ghost use Rattle.reg_records.specs.RecordCells.{held, HasRoom, WritesPart, WritesRecord};
ghost use Rattle.reg_records.specs.SubkeyLists.{form_of, list_of, list_fault, letters_of, entry_size, entries_as, entry_bytes, head_bytes, list_bytes, as_read};

use crate::cells::write_part;
use crate::{RecordFault, half_at, half_bytes, is_signed, word_at, word_bytes};
use reg_arena::Arena;

/// The length of a list before its entries, in bytes.
const HEAD: usize = 4;

/// The form of a list of subkeys.
#[derive(Clone, Copy, Debug, PartialEq, Eq)]
pub enum ListForm {
    /// `ri`, which lists lists.
    IndexRoot,
    /// `li`, which lists keys.
    IndexLeaf,
    /// `lf`, which lists keys, each with the first letters of its name.
    FastLeaf,
    /// `lh`, which lists keys, each with the hash of its name.
    HashLeaf,
}

/// An entry of a list of subkeys.
#[derive(Clone, Copy, Debug, PartialEq, Eq)]
pub struct ListEntry {
    /// The offset of a key, or in an `ri` of a list.
    pub offset: u32,
    /// The first letters of the key's name in an `lf`, its hash in an `lh`, and else 0.
    pub hint: u32,
}

/// What stands before the entries of a list of subkeys.
#[derive(Clone, Copy, Debug, PartialEq, Eq)]
pub struct ListHead {
    /// The form of the list.
    pub form: ListForm,
    /// How many entries it has.
    pub count: u16,
}

impl ListForm {
    /// The two letters at the start of a list.
    fn letters(self) -> [u8; 2]
        ensures { result ≡ letters_of self }
    {
        match self {
            ListForm::IndexRoot => *b"ri",
            ListForm::IndexLeaf => *b"li",
            ListForm::FastLeaf => *b"lf",
            ListForm::HashLeaf => *b"lh",
        }
    }

    /// The size of an entry, in bytes: 4 in an `ri` or `li`, 8 in an `lf` or `lh`.
    pub fn entry_size(self) -> u32
        ensures { result ≡ entry_size self }
    {
        match self {
            ListForm::IndexRoot | ListForm::IndexLeaf => 4,
            ListForm::FastLeaf | ListForm::HashLeaf => 8,
        }
    }
}

/// The form of a list, by the two letters at its start.
fn form_at(content: &[u8]) -> Option<ListForm>
    requires { 4 ≤ length content.now }
    ensures { result ≡ form_of content.now }
{
    if is_signed(content, b'r', b'i') {
        return Some(ListForm::IndexRoot);
    }
    if is_signed(content, b'l', b'i') {
        return Some(ListForm::IndexLeaf);
    }
    if is_signed(content, b'l', b'f') {
        return Some(ListForm::FastLeaf);
    }
    if is_signed(content, b'l', b'h') {
        return Some(ListForm::HashLeaf);
    }
    None
}

/// Reads a list of subkeys from the start of what a cell holds: its form, and how many entries there are, which
/// `entry_at` reads.
///
/// `Short` is for less than 4 bytes, `Signature` where they don't begin with `ri`, `li`, `lf` or `lh`, and `Length`
/// where the entries would pass the end.
pub fn read_list(content: &[u8]) -> Result<ListHead, RecordFault>
    ensures read { MatchResult result
        (λ head. list_of content.now ≡
        Some (record { form = head.form; entries = entries_as head.form head.count 4 content.now }))
        (λ fault. list_of content.now ≡ None) }
    ensures fault { MatchResult result (λ head. list_fault content.now ≡ None) (λ fault. list_fault content.now ≡ Some fault) }
    ensures enough { IfOk result (λ head. 4 + entry_size head.form * head.count ≤ length content.now) }
{
    if content.len() < HEAD {
        return Err(RecordFault::Short);
    }
    let Some(form) = form_at(content) else {
        return Err(RecordFault::Signature);
    };
    let count = half_at(content, 2);
    if content.len() < HEAD + form.entry_size() as usize * usize::from(count) {
        return Err(RecordFault::Length);
    }
    Ok(ListHead { form, count })
}

/// The entry at an index of a list, counted from 0.
pub fn entry_at(content: &[u8], form: ListForm, index: u16) -> ListEntry
    requires { 4 + entry_size form * (index + 1) ≤ length content.now }
    ensures { (count : ℕ) → index < count → slice_get (entries_as form count 4 content.now) index ≡ Some result }
{
    let at = HEAD + form.entry_size() as usize * usize::from(index);
    let offset = word_at(content, at);
    let hint = match form {
        ListForm::IndexRoot | ListForm::IndexLeaf => 0,
        ListForm::FastLeaf | ListForm::HashLeaf => word_at(content, at + 4),
    };
    ListEntry { offset, hint }
}

/// Writes the entry at an index, counted from 0, of the list that a cell holds. An `ri` or `li` has no room for a hint,
/// which is not written. The other entries stay, and so does their number.
pub fn put_entry(arena: &mut Arena, cell: u32, form: ListForm, index: u16, entry: ListEntry)
    requires { HasRoom (heap_of arena.old) cell (4 + entry_size form * (index + 1)) }
    ensures written { WritesPart arena.old arena.new cell (4 + entry_size form * index) (entry_bytes form entry) }
    ensures offset { entry.offset < 2 ^ 32 }
    ensures hint { entry.hint < 2 ^ 32 }
{
    let [p0, p1, p2, p3] = word_bytes(entry.offset);
    let [h0, h1, h2, h3] = word_bytes(entry.hint);
    let at = 4 + form.entry_size() * u32::from(index);
    match form {
        ListForm::IndexRoot | ListForm::IndexLeaf => {
            write_part(arena, cell, at, &[p0, p1, p2, p3]);
        }
        ListForm::FastLeaf | ListForm::HashLeaf => {
            write_part(arena, cell, at, &[p0, p1, p2, p3, h0, h1, h2, h3]);
        }
    }
}

/// Writes the form of the list that a cell holds, and how many entries it has. The entries stay.
pub fn put_head(arena: &mut Arena, cell: u32, head: ListHead)
    requires { HasRoom (heap_of arena.old) cell 4 }
    ensures written { WritesPart arena.old arena.new cell 0 (head_bytes head.form head.count) }
    ensures count { head.count < 2 ^ 16 }
{
    let [a, b] = head.form.letters();
    let [n0, n1] = half_bytes(head.count);
    write_part(arena, cell, 0, &[a, b, n0, n1]);
}

/// Writes a list of subkeys at the start of what a cell holds. What follows it there stays.
///
/// An `ri` or `li` has no room for hints, which are not written.
pub fn put_list(arena: &mut Arena, cell: u32, form: ListForm, entries: &[ListEntry])
    requires room { HasRoom (heap_of arena.old) cell (4 + entry_size form * length entries.now) }
    requires count { length entries.now < 2 ^ 16 }
    ensures written { WritesRecord arena.old arena.new cell (4 + entry_size form * length entries.now) (list_bytes form entries.now) }
    ensures reads { list_of (held (heap_of arena.new) cell) ≡ Some (record { form = form; entries = as_read form entries.now }) }
{
    let count = entries.len() as u16;
    put_head(arena, cell, ListHead { form, count });
    for index in 0..entries.len() {
        put_entry(arena, cell, form, index as u16, entries[index]);
    }
}
