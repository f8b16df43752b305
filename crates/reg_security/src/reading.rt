//! What a key security says.

ghost use Rattle.std.specs.Prelude.{◌≡◌, ◌≤◌, ◌+◌, Some, IsSome, length};
ghost use Rattle.reg_heap.specs.declared.limits.TheConstants.{DESCRIPTOR_LIMIT};
ghost use Rattle.reg_arena.specs.Arena.{heap_of};
ghost use Rattle.reg_arena.specs.NewCells.{cell_size as cell_size_of};
ghost use Rattle.reg_records.specs.KeySecurities.{KeySecurityRecord, security_at};
ghost use Rattle.reg_shape.specs.Whole.{descriptor_at, count_at, flink_at, blink_at};

use reg_arena::{Arena, cell_size};
use reg_records::{SecurityRecord, read_sk};

/// The size in bytes of the cell that a descriptor takes, of 1 to 65,535 bytes, where no security of the ring has it yet.
pub fn plan_add(descriptor: &[u8]) -> u32
    requires { length descriptor.now ≤ DESCRIPTOR_LIMIT }
    ensures { result ≡ cell_size_of (20 + length descriptor.now) }
{
    cell_size(20 + descriptor.len() as u32)
}

/// A key security as it stands in its cell.
pub fn read(arena: &Arena, cell: u32) -> SecurityRecord<'_>
    requires { IsSome (security_at (heap_of arena.now) cell) }
    ensures { security_at (heap_of arena.now) cell ≡ Some (record { fields = result.fields; descriptor = result.descriptor.now }) }
{
    match read_sk(arena.content(cell)) {
        Ok(read) => read,
        Err(_) => unreachable!(),
    }
}

/// The descriptor of a key security.
pub fn descriptor(arena: &Arena, cell: u32) -> &[u8]
    requires { IsSome (security_at (heap_of arena.now) cell) }
    ensures { descriptor_at (heap_of arena.now) cell ≡ Some result.now }
{
    read(arena, cell).descriptor
}
