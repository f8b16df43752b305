//! Records written into cells.
ghost use Rattle.std.specs.Prelude.{◌+◌, ◌≤◌, ◌<◌, ◌^◌, ◌++◌, ℕ, length};
ghost use Rattle.reg_heap.specs.declared.limits.TheConstants.{BINS_LIMIT};
ghost use Rattle.reg_arena.specs.Arena.{heap_of};
ghost use Rattle.reg_records.specs.RecordCells.{HasRoom, WritesPart, WritesRecord};

use reg_arena::Arena;

/// A law, which does nothing: what a cell has room for is no more than all bins may have.
pub fn room_is_small(arena: &Arena)
    ensures { (cell size : ℕ) → HasRoom (heap_of arena.now) cell size → size ≤ BINS_LIMIT }
{
    // Every arena is sound, as this call's contract says.
    prove!(arena.bins_size() % 4096 == 0);
}

/// Writes a part of what a cell holds, from byte `at` of it on. The bytes before and behind it stay.
pub fn write_part(arena: &mut Arena, cell: u32, at: u32, bytes: &[u8])
    requires { HasRoom (heap_of arena.old) cell (at + length bytes.now) }
    ensures { WritesPart arena.old arena.new cell at bytes.now }
{
    arena.write(cell, at, bytes);
}

/// Writes a record of two parts, the one behind the other, at the start of what a cell holds. What follows it there stays.
pub fn write_record(arena: &mut Arena, cell: u32, head: &[u8], tail: &[u8])
    requires room { HasRoom (heap_of arena.old) cell (length head.now + length tail.now) }
    requires head { length head.now < 2 ^ 32 }
    ensures { WritesRecord arena.old arena.new cell (length head.now + length tail.now) (head.now ++ tail.now) }
{
    write_part(arena, cell, 0, head);
    write_part(arena, cell, head.len() as u32, tail);
}
