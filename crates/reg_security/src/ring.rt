//! The ring, in which each key security names the next and the one before.

ghost use Rattle.std.specs.Prelude.{◌≡◌, ◌≢◌, ◌≤◌, ◌<◌, ◌+◌, ℕ, List, [], Some, None, IsSome, length};
ghost use Rattle.reg_heap.specs.declared.limits.TheConstants.{DESCRIPTOR_LIMIT};
ghost use Rattle.reg_heap.specs.Kinds.{times};
ghost use Rattle.reg_arena.specs.Arena.{heap_of};
ghost use Rattle.reg_records.specs.RecordCells.{HasRoom, WritesRecord};
ghost use Rattle.reg_records.specs.KeySecurities.{KeySecurityRecord, security_at, sk_bytes};
ghost use Rattle.reg_shape.specs.Whole.{IsRing, descriptor_at};
ghost use Rattle.reg_security.specs.Rings.{IsAdded, IsNear, IsPut, IsRelinked, IsRemoved};

use crate::reading::read;
use reg_arena::Arena;
use reg_records::{SecurityFields, put_sk, set_blink, set_flink};

/// Writes a key security into a cell, as the only one of its ring, which one key node uses.
fn put_alone(arena: &mut Arena, cell: u32, descriptor: &[u8])
    requires room { HasRoom (heap_of arena.old) cell (20 + length descriptor.now) }
    requires descriptor { (1 ≤ length descriptor.now) × (length descriptor.now ≤ DESCRIPTOR_LIMIT) }
    ensures added { IsAdded (heap_of arena.old) (heap_of arena.new) [] cell descriptor.now }
    ensures written { WritesRecord arena.old arena.new cell (20 + length descriptor.now)
        (sk_bytes (record { flink = cell; blink = cell; count = 1 }) descriptor.now) }
    ensures beside { (offset : ℕ) → offset ≢ cell → IsRelinked (heap_of arena.old) (heap_of arena.new) offset }
    ensures put { IsPut (heap_of arena.old) (heap_of arena.new) cell descriptor.now }
    ensures long { length arena.new.bytes ≡ length arena.old.bytes }
{
    let fields = SecurityFields {
        flink: cell,
        blink: cell,
        count: 1,
    };
    put_sk(arena, cell, &fields, descriptor);
}

/// Writes a key security into a cell, which comes into the ring behind another, and which one key node uses.
fn put_behind(arena: &mut Arena, before: u32, cell: u32, descriptor: &[u8])
    requires ring { (ring : List ℕ) × IsRing (heap_of arena.old) ring × (0 < times before ring) × (times cell ring ≡ 0)
        × ((offset : ℕ) → 0 < times offset ring → descriptor_at (heap_of arena.old) offset ≢ Some descriptor.now) }
    requires room { HasRoom (heap_of arena.old) cell (20 + length descriptor.now) }
    requires descriptor { (1 ≤ length descriptor.now) × (length descriptor.now ≤ DESCRIPTOR_LIMIT) }
    ensures added { (ring : List ℕ) → IsRing (heap_of arena.old) ring → 0 < times before ring → times cell ring ≡ 0 →
        ((offset : ℕ) → 0 < times offset ring → descriptor_at (heap_of arena.old) offset ≢ Some descriptor.now) →
        IsAdded (heap_of arena.old) (heap_of arena.new) ring cell descriptor.now }
    ensures beside { (offset : ℕ) → offset ≢ cell → IsRelinked (heap_of arena.old) (heap_of arena.new) offset }
    ensures put { IsPut (heap_of arena.old) (heap_of arena.new) cell descriptor.now }
    ensures long { length arena.new.bytes ≡ length arena.old.bytes }
{
    let after = read(arena, before).fields.flink;
    let fields = SecurityFields {
        flink: after,
        blink: before,
        count: 1,
    };
    put_sk(arena, cell, &fields, descriptor);
    set_blink(arena, after, cell);
    set_flink(arena, before, cell);
}

/// Writes a key security into a cell, which comes into the ring behind another or, where the ring is empty, alone.
pub fn put(arena: &mut Arena, near: Option<u32>, cell: u32, descriptor: &[u8])
    requires ring { (ring : List ℕ) × IsRing (heap_of arena.old) ring × IsNear ring near × (times cell ring ≡ 0)
        × ((offset : ℕ) → 0 < times offset ring → descriptor_at (heap_of arena.old) offset ≢ Some descriptor.now) }
    requires room { HasRoom (heap_of arena.old) cell (20 + length descriptor.now) }
    requires descriptor { (1 ≤ length descriptor.now) × (length descriptor.now ≤ DESCRIPTOR_LIMIT) }
    ensures added { (ring : List ℕ) → IsRing (heap_of arena.old) ring → IsNear ring near → times cell ring ≡ 0 →
        ((offset : ℕ) → 0 < times offset ring → descriptor_at (heap_of arena.old) offset ≢ Some descriptor.now) →
        IsAdded (heap_of arena.old) (heap_of arena.new) ring cell descriptor.now }
    ensures first { near ≡ None → WritesRecord arena.old arena.new cell (20 + length descriptor.now)
        (sk_bytes (record { flink = cell; blink = cell; count = 1 }) descriptor.now) }
    ensures beside { (offset : ℕ) → offset ≢ cell → IsRelinked (heap_of arena.old) (heap_of arena.new) offset }
    ensures put { IsPut (heap_of arena.old) (heap_of arena.new) cell descriptor.now }
    ensures long { length arena.new.bytes ≡ length arena.old.bytes }
{
    let Some(before) = near else {
        put_alone(arena, cell, descriptor);
        return;
    };
    put_behind(arena, before, cell, descriptor);
}

/// Takes a key security out of its ring and frees its cell. It takes no memory.
pub fn take_out(arena: &mut Arena, cell: u32)
    requires ring { (ring : List ℕ) × IsRing (heap_of arena.old) ring × (0 < times cell ring) }
    ensures removed { (ring : List ℕ) → IsRing (heap_of arena.old) ring → 0 < times cell ring →
        IsRemoved (heap_of arena.old) (heap_of arena.new) ring cell }
    ensures beside { (offset : ℕ) → offset ≢ cell → IsRelinked (heap_of arena.old) (heap_of arena.new) offset }
    ensures long { length arena.new.bytes ≡ length arena.old.bytes }
{
    let fields = read(arena, cell).fields;
    if fields.flink != cell {
        set_flink(arena, fields.blink, fields.flink);
        set_blink(arena, fields.flink, fields.blink);
    }
    arena.free(cell);
}
