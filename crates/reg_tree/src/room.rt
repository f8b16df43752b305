//! Room for cells that are to come.

ghost use Rattle.std.specs.Prelude.{◌≡◌, ◌+◌, ◌%◌, ◌≤◌, ◌<◌, Err, [], ◌∷◌, length, OnOk, OnErr};
ghost use Rattle.reg_arena.specs.Arena.{heap_of};
ghost use Rattle.reg_arena.specs.EachCell.{GrowsFor};
ghost use Rattle.reg_arena.specs.declared.TheConstants.{CARVE_LIMIT};
ghost use Rattle.reg_tree.specs.CellSizes.{LacksRoom};
ghost use Rattle.reg_tree.specs.MoreRoom.{HasFit};

use reg_arena::{Arena, ArenaFault};
use std::alloc::Global;

/// Sees to it that a free cell has a size: where none has, a bin is appended. `Full`, `Memory`: then the arena is as before.
pub fn reserve(alloc: Global, arena: &mut Arena, size: u32) -> Result<(), ArenaFault>
    requires eights { size % 8 ≡ 0 }
    requires some { 0 < size }
    requires small { size ≤ CARVE_LIMIT }
    ensures cells { heap_of arena.new ≡ heap_of arena.old }
    ensures fits { OnOk result (HasFit arena.new.bytes size) }
    ensures growth { OnOk result (GrowsFor arena.old.bytes arena.new.bytes (size ∷ [])) }
    ensures space { result ≡ Err ArenaFault.Full → LacksRoom arena.old (size ∷ []) }
    ensures err { OnErr result (arena.new ≡ arena.old) }
    ensures kept { OnOk result (length arena.old.bytes ≤ length arena.new.bytes) }
{
    let mut cells = Vec::new(alloc);
    match arena.carve(&[size], &mut cells) {
        Ok(()) => {
            arena.free(cells[0]);
            Ok(())
        }
        Err(fault) => Err(fault),
    }
}
