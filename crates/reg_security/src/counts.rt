//! How many key nodes use a key security.

ghost use Rattle.std.specs.Prelude.{◌≡◌, ◌≤◌, ◌<◌, ◌+◌, ◌-◌, List, ℕ, Some, IsSome, length};
ghost use Rattle.byteorder.specs.Endian.{little_bytes};
ghost use Rattle.reg_arena.specs.Arena.{heap_of};
ghost use Rattle.reg_records.specs.RecordCells.{WritesPart};
ghost use Rattle.reg_records.specs.KeySecurities.{KeySecurityRecord, security_at};
ghost use Rattle.reg_shape.specs.Whole.{IsRing};
ghost use Rattle.reg_security.specs.Rings.{Recounts};

use crate::reading::read;
use reg_arena::Arena;
use reg_records::set_security_count;

/// Counts one key node more that uses a key security of a ring, which stays as it is. It takes no memory. There are fewer key nodes
/// than bytes of bins, so that the count stays within its four bytes.
pub fn share(arena: &mut Arena, cell: u32)
    requires there { IsSome (security_at (heap_of arena.old) cell) }
    requires few { (s : KeySecurityRecord) → security_at (heap_of arena.old) cell ≡ Some s → s.fields.count < length arena.old.bytes }
    ensures recounts { Recounts (heap_of arena.old) (heap_of arena.new) cell (λ n. n + 1) }
    ensures written { (s : KeySecurityRecord) → security_at (heap_of arena.old) cell ≡ Some s →
        WritesPart arena.old arena.new cell 12 (little_bytes 4 (s.fields.count + 1)) }
    ensures ring { (ring : List ℕ) → IsRing (heap_of arena.old) ring → IsRing (heap_of arena.new) ring }
    ensures long { length arena.new.bytes ≡ length arena.old.bytes }
{
    let count = read(arena, cell).fields.count;
    prove!(count < arena.bins_size());
    set_security_count(arena, cell, count + 1);
}

/// Counts one key node less that uses a key security, which others use, too.
pub fn count_down(arena: &mut Arena, cell: u32)
    requires there { IsSome (security_at (heap_of arena.old) cell) }
    requires some { (s : KeySecurityRecord) → security_at (heap_of arena.old) cell ≡ Some s → 1 ≤ s.fields.count }
    ensures recounts { Recounts (heap_of arena.old) (heap_of arena.new) cell (λ n. n - 1) }
    ensures written { (s : KeySecurityRecord) → security_at (heap_of arena.old) cell ≡ Some s →
        WritesPart arena.old arena.new cell 12 (little_bytes 4 (s.fields.count - 1)) }
    ensures ring { (ring : List ℕ) → IsRing (heap_of arena.old) ring → IsRing (heap_of arena.new) ring }
    ensures long { length arena.new.bytes ≡ length arena.old.bytes }
{
    let count = read(arena, cell).fields.count;
    set_security_count(arena, cell, count - 1);
}
