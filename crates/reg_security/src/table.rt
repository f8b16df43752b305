//! A key security found by its descriptor.

ghost use Rattle.std.specs.Prelude.{◌≡◌, ◌≢◌, ◌≤◌, ◌<◌, ◌+◌, ◌-◌, ℕ, List, [], Some, None, IsSome, true, length, IfOk, OnErr, OnOk, MatchOption};
ghost use Rattle.byteorder.specs.Endian.{little_bytes};
ghost use Rattle.reg_heap.specs.declared.limits.TheConstants.{DESCRIPTOR_LIMIT};
ghost use Rattle.reg_heap.specs.Heaps.{Heap};
ghost use Rattle.reg_heap.specs.Kinds.{times};
ghost use Rattle.reg_arena.specs.Arena.{heap_of};
ghost use Rattle.reg_records.specs.RecordCells.{HasRoom, WritesPart, WritesRecord};
ghost use Rattle.reg_records.specs.KeySecurities.{KeySecurityRecord, security_at, sk_bytes};
ghost use Rattle.reg_shape.specs.Whole.{IsRing, descriptor_at, count_at};

use crate::cells::CellMap;
use crate::counts::count_down;
use crate::reading::{descriptor as descriptor_in, read};
use crate::ring::{put, take_out};
use reg_arena::Arena;
use std::alloc::{AllocError, Global};
use std::marker::Model;

/// The key securities of a ring by their descriptors: by a hash, and in the order of the bytes where hashes are equal, so that what
/// is asked for can't make a search linear. It keeps a copy of each descriptor.
#[derive(Drop)]
pub struct SecurityTable {
    cells: CellMap,
}

impl Model for SecurityTable {
    ghost use Rattle.reg_security.specs.Rings.{DescriptorCells, coded_cells};

    ghost Value = { DescriptorCells };

    ghost coded = { coded_cells };

    ghost view = { λ t. t.cells };
}

impl SecurityTable {
    ghost use Rattle.reg_security.specs.Rings.{Describes, Expects, Finds, IsAdded, IsNear, IsPut, IsRelinked, IsRemoved, MakesReady, Notes, Recounts, cell_of};

    /// A table of no securities.
    pub fn new(alloc: Global) -> SecurityTable
        ensures finds { (heap : Heap) → Finds result heap [] }
        ensures empty { (descriptor : List ℕ) → cell_of result descriptor ≡ None }
    {
        SecurityTable {
            cells: CellMap::new(alloc),
        }
    }

    /// The table of a ring as it stands in the cells, whose securities these are. Where memory is short, there is none.
    pub fn of_ring(alloc: Global, arena: &Arena, ring: &[u32]) -> Result<SecurityTable, AllocError>
        requires { IsRing (heap_of arena.now) ring.now }
        ensures { IfOk result (λ table. Finds table (heap_of arena.now) ring.now) }
    {
        let mut table = SecurityTable::new(alloc);
        for cell in ring {
            table.note(alloc, descriptor_in(arena, *cell), *cell)?;
        }
        Ok(table)
    }

    /// Notes the cell of a security by its descriptor.
    fn note(&mut self, alloc: Global, descriptor: &[u8], cell: u32) -> Result<(), AllocError>
        ensures { OnOk result (Notes (cell_of self.old) descriptor.now (Some cell) (cell_of self.new)) }
    {
        self.cells.expect(alloc, descriptor)?;
        self.cells.set(descriptor, cell);
        Ok(())
    }

    /// The cell of the ring's security that has an equal descriptor, byte for byte, or `None` where none has.
    pub fn find_equal(&self, descriptor: &[u8]) -> Option<u32>
        ensures noted { result ≡ cell_of self.now descriptor.now }
        ensures found { (heap : Heap) (ring : List ℕ) → Finds self.now heap ring →
            MatchOption result ((cell : ℕ) → 0 < times cell ring → descriptor_at heap cell ≢ Some descriptor.now)
            (λ cell. Describes heap ring cell descriptor.now) }
    {
        self.cells.find(descriptor)
    }

    /// Makes room for a security whose descriptor no security of the ring has, so that `add` can't fail, and tells whether it did: not
    /// where one has it, which `find_equal` finds. `forget` gives the room up. Where memory is short, the table is as before.
    pub fn expect(&mut self, alloc: Global, descriptor: &[u8]) -> Result<bool, AllocError>
        ensures ready { IfOk result (λ made. MakesReady self.old descriptor.now made self.new) }
        ensures expects { IfOk result (λ made. made ≡ true →
            (heap : Heap) (ring : List ℕ) → Finds self.old heap ring → Expects self.new heap ring descriptor.now) }
        ensures err { OnErr result (self.new ≡ self.old) }
    {
        self.cells.expect(alloc, descriptor)
    }

    /// Gives up the room that `expect` made.
    pub fn forget(&mut self, descriptor: &[u8])
        ensures noted { Notes (cell_of self.old) descriptor.now None (cell_of self.new) }
        ensures finds { (heap : Heap) (ring : List ℕ) → Expects self.old heap ring descriptor.now → Finds self.new heap ring }
    {
        self.cells.remove(descriptor);
    }

    /// Puts a security into the ring, in a cell carved for it, of the size that `plan_add` gave: behind another one, or alone where
    /// the ring is empty. One key node uses it. `expect` has made room for its descriptor. It takes no memory.
    pub fn add(&mut self, arena: &mut Arena, near: Option<u32>, cell: u32, descriptor: &[u8])
        requires ring { (ring : List ℕ) × IsRing (heap_of arena.old) ring × IsNear ring near × (times cell ring ≡ 0)
            × Expects self.old (heap_of arena.old) ring descriptor.now }
        requires room { HasRoom (heap_of arena.old) cell (20 + length descriptor.now) }
        requires descriptor { (1 ≤ length descriptor.now) × (length descriptor.now ≤ DESCRIPTOR_LIMIT) }
        ensures added { (ring : List ℕ) → IsRing (heap_of arena.old) ring → IsNear ring near → times cell ring ≡ 0 →
            Expects self.old (heap_of arena.old) ring descriptor.now →
            (a : IsAdded (heap_of arena.old) (heap_of arena.new) ring cell descriptor.now)
            × Finds self.new (heap_of arena.new) a.after }
        ensures first { near ≡ None → WritesRecord arena.old arena.new cell (20 + length descriptor.now)
            (sk_bytes (record { flink = cell; blink = cell; count = 1 }) descriptor.now) }
        ensures noted { Notes (cell_of self.old) descriptor.now (Some cell) (cell_of self.new) }
        ensures beside { (offset : ℕ) → offset ≢ cell → IsRelinked (heap_of arena.old) (heap_of arena.new) offset }
        ensures put { IsPut (heap_of arena.old) (heap_of arena.new) cell descriptor.now }
        ensures long { length arena.new.bytes ≡ length arena.old.bytes }
    {
        put(arena, near, cell, descriptor);
        self.cells.set(descriptor, cell);
    }

    /// Counts one key node less that uses a security of the ring; one that no key node uses any more leaves the ring and is freed.
    /// It takes no memory.
    pub fn release(&mut self, arena: &mut Arena, cell: u32)
        requires ring { (ring : List ℕ) × IsRing (heap_of arena.old) ring × (0 < times cell ring) × Finds self.old (heap_of arena.old) ring }
        requires some { (n : ℕ) → count_at (heap_of arena.old) cell ≡ Some n → 1 ≤ n }
        ensures fewer { (n : ℕ) → count_at (heap_of arena.old) cell ≡ Some n → 1 < n →
            Recounts (heap_of arena.old) (heap_of arena.new) cell (λ n. n - 1)
            × (self.new ≡ self.old)
            × ((ring : List ℕ) → IsRing (heap_of arena.old) ring → Finds self.old (heap_of arena.old) ring →
            IsRing (heap_of arena.new) ring × Finds self.new (heap_of arena.new) ring) }
        ensures last { count_at (heap_of arena.old) cell ≡ Some 1 →
            (ring : List ℕ) → IsRing (heap_of arena.old) ring → 0 < times cell ring → Finds self.old (heap_of arena.old) ring →
            (r : IsRemoved (heap_of arena.old) (heap_of arena.new) ring cell)
            × Finds self.new (heap_of arena.new) r.after }
        ensures written { (s : KeySecurityRecord) → security_at (heap_of arena.old) cell ≡ Some s → 1 < s.fields.count →
            WritesPart arena.old arena.new cell 12 (little_bytes 4 (s.fields.count - 1)) }
        ensures beside { (offset : ℕ) → offset ≢ cell → IsRelinked (heap_of arena.old) (heap_of arena.new) offset }
        ensures long { length arena.new.bytes ≡ length arena.old.bytes }
    {
        if read(arena, cell).fields.count > 1 {
            count_down(arena, cell);
            return;
        }
        self.cells.remove(descriptor_in(arena, cell));
        take_out(arena, cell);
    }
}
