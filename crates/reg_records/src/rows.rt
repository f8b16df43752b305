//! Rows of offsets, as the list of a key's values.
//!
//! Suhanov, Windows registry file format specification, section "Key values list".

ghost use Rattle.std.specs.Prelude.{◌≡◌, ◌≢◌, ◌+◌, ◌*◌, ◌≤◌, ℕ, length};
ghost use Rattle.byteorder.specs.Endian.{little_bytes};
ghost use Rattle.reg_arena.specs.Arena.{heap_of};
ghost use Rattle.reg_records.specs.RecordCells.{HasRoom, WritesPart, held};
ghost use Rattle.reg_records.specs.OffsetRows.{offset_in};

use crate::cells::{room_is_small, write_part};
use crate::{word_at, word_bytes};
use reg_arena::Arena;

/// The offset at an index of a row, counted from 0.
#[tactic(auto, unfolding(crate::specs::OffsetRows::offset_in))]
pub fn offset_at(content: &[u8], index: u32) -> u32
    requires { 4 * index + 4 ≤ length content.now }
    ensures { result ≡ offset_in content.now index }
{
    word_at(content, 4 * index as usize)
}

/// Writes the offset at an index, counted from 0, of the row that a cell holds. The others stay.
pub fn put_offset(arena: &mut Arena, cell: u32, index: u32, offset: u32)
    requires room { HasRoom (heap_of arena.old) cell (4 * index + 4) }
    ensures written { WritesPart arena.old arena.new cell (4 * index) (little_bytes 4 offset) }
    ensures here { offset_in (held (heap_of arena.new) cell) index ≡ offset }
    ensures others { (other : ℕ) → other ≢ index →
        offset_in (held (heap_of arena.new) cell) other ≡ offset_in (held (heap_of arena.old) cell) other }
{
    room_is_small(arena);
    write_part(arena, cell, 4 * index, &word_bytes(offset));
}
