ghost use Rattle.std.specs.Prelude.{◌≡◌, ◌≢◌, ◌+◌, ◌^◌, Err, ◌-◌, ◌*◌, ◌/◌, ◌%◌, ◌≤◌, ◌<◌, [], ◌∷◌, IfOk, IfErr, OnOk, OnErr, length};
ghost use Rattle.reg_arena.specs.declared.TheConstants.{CARVE_LIMIT};
ghost use Rattle.reg_arena.specs.Carves.{NoFit, CarvesExactly};
ghost use Rattle.reg_arena.specs.NewBin.{IsBinSize, PassesLimit};
ghost use Rattle.reg_arena.specs.NewCells.{total_of};
ghost use Rattle.reg_tree.specs.Internal.FreshCells.{AreCarved};

use reg_arena::{Arena, ArenaFault};
use std::alloc::Global;

/// Two new cells of zeros, side by side.
pub fn carve_two(
    alloc: Global,
    arena: &mut Arena,
    first: u32,
    second: u32,
) -> Result<(u32, u32), ArenaFault>
    requires first { (first % 8 ≡ 0) × (0 < first) }
    requires second { (second % 8 ≡ 0) × (0 < second) }
    requires sum { first + second ≤ CARVE_LIMIT }
    ensures ok { IfOk result (λ cells. AreCarved arena.old arena.new cells.0 cells.1 first second) }
    ensures exact { IfOk result (λ cells. CarvesExactly arena.old.bytes arena.new.bytes (first ∷ second ∷ []) (cells.0 ∷ cells.1 ∷ [])) }
    ensures err { OnErr result (arena.new ≡ arena.old) }
    ensures full { result ≡ Err ArenaFault.Full → arena.old.bytes ≡ [] → ⊥ }
    ensures space { result ≡ Err ArenaFault.Full → NoFit arena.old.bytes (total_of (first ∷ second ∷ [])) }
    ensures limit { result ≡ Err ArenaFault.Full → PassesLimit arena.old.bytes (total_of (first ∷ second ∷ [])) }
    ensures bin { OnOk result (arena.old.bytes ≡ [] → IsBinSize (length arena.new.bytes) (first + second)) }
{
    let mut cells = Vec::new(alloc);
    match arena.carve(&[first, second], &mut cells) {
        Ok(()) => Ok((cells[0], cells[1])),
        Err(ArenaFault::Full) => Err(ArenaFault::Full),
        Err(ArenaFault::Memory) => Err(ArenaFault::Memory),
    }
}
