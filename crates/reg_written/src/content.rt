//! What cells of foreign bins hold.

ghost use Rattle.std.specs.Prelude.{◌≡◌, ◌+◌, ◌≤◌, ℕ, List, length, Some};
ghost use Rattle.reg_heap.specs.ByteWords.{half, word};
ghost use Rattle.reg_arena.specs.Cells.{cell_at, size_in};

use byteorder::{ByteOrder, LittleEndian};

/// The 16-bit number at a place.
#[tactic(auto, unfolding(reg_heap::specs::ByteWords::half))]
pub fn half_at(bytes: &[u8], at: usize) -> u16
    requires { at + 2 ≤ length bytes.now }
    ensures { result ≡ half bytes.now at }
{
    LittleEndian::read_u16(&bytes[at..])
}

/// The 32-bit number at a place.
#[tactic(auto, unfolding(reg_heap::specs::ByteWords::word))]
pub fn word_at(bytes: &[u8], at: usize) -> u32
    requires { at + 4 ≤ length bytes.now }
    ensures { result ≡ word bytes.now at }
{
    LittleEndian::read_u32(&bytes[at..])
}

/// The size of the cell at a place.
pub fn size_at(bins: &[u8], at: usize) -> u32
    requires { at + 4 ≤ length bins.now }
    ensures { result ≡ size_in (word bins.now at) }
{
    let field = word_at(bins, at);
    if field < 0x8000_0000 {
        field
    } else {
        0xFFFF_FFFF - field + 1
    }
}

/// What the allocated cell at an offset holds.
pub fn content(bins: &[u8], offset: u32) -> &[u8]
    ensures { (held : List ℕ) → cell_at bins.now offset ≡ Some held → result.now ≡ held }
{
    let at = offset as usize;
    if at + 8 > bins.len() {
        return &[];
    }
    let size = size_at(bins, at) as usize;
    if size < 8 || at + size > bins.len() {
        return &[];
    }
    &bins[at + 4..at + size]
}
