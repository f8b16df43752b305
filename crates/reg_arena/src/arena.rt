//! The arena as callers see it.
ghost use Rattle.std.specs.Prelude.{◌≡◌, ◌==◌, ◌+◌, ◌-◌, ◌≤◌, ◌<◌, ℕ, List, [], ◌∷◌, ◌++◌, length, take, drop, IsSome, Some, None, unwrap_or};
ghost use Rattle.std.specs.Prelude.{if◌then◌else◌, IfOk, IfErr, OnOk, OnErr, ◌↔◌};
ghost use Rattle.reg_heap.specs.declared.limits.TheConstants.{BINS_LIMIT, GROWTH_BOUND};
ghost use Rattle.reg_heap.specs.Heaps.{AreNew, GivesUp, Writes};
ghost use Rattle.reg_heap.specs.ByteWords.{splice, word};
ghost use Rattle.reg_arena.specs.declared.TheConstants.{CARVE_LIMIT};
ghost use Rattle.reg_arena.specs.Arena.{IsArena, IsSound, empty_heads, heap_of};
ghost use Rattle.reg_arena.specs.NewCells.{total_of, AreSizes};
ghost use Rattle.reg_arena.specs.Carves.{AddsCells, CarvesExactly, NoFit};
ghost use Rattle.reg_arena.specs.EachCell.{fresh_of, AreCarvable, CarvesChange, EachFalling, GrowsFor};
ghost use Rattle.reg_arena.specs.NewBin.{PassesLimit};
ghost use Rattle.reg_arena.specs.Frees.{Frees};
ghost use Rattle.reg_arena.specs.Cells.{cell_at, cells_of, size_in, IsInBin};
ghost use Rattle.reg_arena.specs.Stretches.{IsStretch};

use crate::adopt::list_all_free;
use crate::bin::{PAGE_SIZE, passes_limit};
use crate::carve::{carve_bin, carve_found, sum_of};
use crate::each::{Spare, carve_cells, fresh_within};
use crate::free::free_cell;
use crate::free_lists::FreeLists;
use crate::stretch::{Stretch, StretchedCell};
use crate::walk::list_cells;
use crate::words::field_size;
use crate::{ArenaFault, Cell};
use byteorder::{ByteOrder, LittleEndian};
use reg_bins::BinRow;
use reg_heap::limits::{BINS_LIMIT, GROWTH_BOUND};
use std::alloc::{AllocError, Global};
use std::marker::Model;

/// Bins of cells, at most 268,435,456 bytes of them, and 24 lists of the free cells by their sizes.
///
/// A cell is named by its offset, which counts from the first bin. What an allocated cell holds are the bytes behind its
/// size field, four fewer than its size. No two free cells of a bin touch.
#[derive(Drop)]
pub struct Arena {
    alloc: Global,
    /// The bytes of all bins, each bin in one vector: those that were taken as they stand together, others in one of their own.
    bins: BinRow,
    /// The lists of the free cells.
    lists: FreeLists,
    /// Memory for bins of one page, kept from call to call, at most 16 of them. Given back to the heap it would leave holes between
    /// the bins.
    kept: Vec<Spare>,
}

impl Model for Arena {
    ghost use Rattle.reg_arena.specs.Arena.{Bins};
    ghost use Rattle.reg_arena.specs.Internal.ListedCells.{IsKept};
    ghost use Rattle.reg_arena.specs.Internal.Spares.{ArePages};

    ghost Value = { Bins };

    ghost view = { λ a. record { bytes = a.bins.items; heads = a.lists.heads } };

    ghost invariant = { λ a. IsKept a.bins a.lists × ArePages a.kept.items };
}

impl Arena {
    /// An arena with no bin.
    #[tactic(auto, unfolding(crate::specs::Arena::empty_heads))]
    pub fn new(alloc: Global) -> Self
        ensures bytes { result.bytes ≡ [] }
        ensures heads { result.heads ≡ empty_heads }
    {
        Arena {
            alloc,
            bins: BinRow::new(alloc),
            lists: FreeLists::new(alloc),
            kept: Vec::new(alloc),
        }
    }

    /// An arena of bins that are taken as they stand, in one piece. The cells are those of the bins and hold what they hold; free
    /// ones come into the lists, for which their links are written anew.
    ///
    /// Its one fault is that memory was refused.
    pub fn adopt(alloc: Global, bins: Vec<u8>) -> Result<Arena, AllocError>
        requires arena { IsArena bins.items }
        requires some { 0 < length bins.items }
        ensures cells { IfOk result (λ arena. cells_of arena.bytes ≡ cells_of bins.items) }
        ensures contents { IfOk result (λ arena. (offset : ℕ) → heap_of arena offset ≡ cell_at bins.items offset) }
        ensures long { IfOk result (λ arena. length arena.bytes ≡ length bins.items) }
    {
        let mut row = BinRow::new(alloc);
        let mut lists = FreeLists::new(alloc);
        row.reserve(bins.len())?;
        lists.make_room(bins.len() / 8)?;
        row.push(bins);
        list_all_free(&mut row, &mut lists);
        Ok(Arena {
            alloc,
            bins: row,
            lists,
            kept: Vec::new(alloc),
        })
    }

    /// How many bytes all bins have together: a multiple of 4096, at most 268,435,456.
    pub fn bins_size(&self) -> u32
        ensures size { result ≡ length self.now.bytes }
        ensures sound { IsSound self.now.bytes self.now.heads }
    {
        self.bins.len() as u32
    }

    /// `len` bytes of one bin, header and size fields too, from the offset `at` on. Who wants all bytes goes bin by bin, or page
    /// by page of 4096 bytes, since a page is in one bin (`laws::page_is_in_one_bin`).
    pub fn bytes(&self, at: u32, len: u32) -> &[u8]
        requires { IsInBin self.now.bytes at len }
        ensures { result.now ≡ take len (drop at self.now.bytes) }
    {
        self.bins.slice(at as usize, len as usize)
    }

    /// All cells of the bins, free ones too, in the order of their offsets.
    ///
    /// Its one fault is [`ArenaFault::Memory`].
    ///
    /// Suhanov, Windows registry file format specification, section "Cell".
    pub fn cells(&self, alloc: Global) -> Result<Vec<Cell>, ArenaFault>
        ensures ok { IfOk result (λ cells. cells_of self.now.bytes ≡ Some cells.items) }
        ensures fault { IfErr result (λ fault. fault ≡ ArenaFault.Memory) }
    {
        list_cells(alloc, &self.bins)
    }

    /// What the allocated cell at the offset `cell` holds: the bytes behind its size field.
    ///
    /// Suhanov, Windows registry file format specification, section "Cell".
    pub fn content(&self, cell: u32) -> &[u8]
        requires { IsSome (heap_of self.now cell) }
        ensures { heap_of self.now cell ≡ Some result.now }
    {
        content_of(self.bins.rest(cell as usize))
    }

    /// What the allocated cell at the offset `cell` holds, and the stretch of its bin in which it was found. Where it lies in the
    /// stretch that is given, its bin isn't looked up.
    pub fn content_by<'a>(&'a self, stretch: Stretch<'a>, cell: u32) -> StretchedCell<'a>
        requires cell { IsSome (heap_of self.now cell) }
        requires stretch { IsStretch (heap_of self.now) stretch.from stretch.bytes.now }
        ensures content { heap_of self.now cell ≡ Some result.content.now }
        ensures from { result.stretch.from ≤ cell }
        ensures to { cell < result.stretch.from + length result.stretch.bytes.now }
        ensures stretch { IsStretch (heap_of self.now) result.stretch.from result.stretch.bytes.now }
    {
        let stretch = self.stretch_for(stretch, cell);
        StretchedCell {
            content: content_of(&stretch.bytes[(cell - stretch.from) as usize..]),
            stretch,
        }
    }

    // The given stretch where a cell lies in it, or else that from the beginning of the cell's page to the end of its bin.
    fn stretch_for<'a>(&'a self, stretch: Stretch<'a>, cell: u32) -> Stretch<'a>
        requires cell { IsSome (heap_of self.now cell) }
        requires stretch { IsStretch (heap_of self.now) stretch.from stretch.bytes.now }
        ensures from { result.from ≤ cell }
        ensures to { cell < result.from + length result.bytes.now }
        ensures stretch { IsStretch (heap_of self.now) result.from result.bytes.now }
    {
        if cell >= stretch.from && ((cell - stretch.from) as usize) < stretch.bytes.len() {
            return stretch;
        }
        let from = cell / PAGE_SIZE * PAGE_SIZE;
        Stretch {
            from,
            bytes: self.bins.rest(from as usize),
        }
    }

    /// Writes `bytes` into the allocated cell at the offset `cell`, from byte `at` of what it holds on. They end within the
    /// cell. Nothing else changes.
    pub fn write(&mut self, cell: u32, at: u32, bytes: &[u8])
        requires exists { IsSome (heap_of self.old cell) }
        requires fits { at + length bytes.now ≤ length (unwrap_or (heap_of self.old cell) []) }
        ensures written { (offset : ℕ) →
            heap_of self.new offset ≡
            (if offset == cell then Some (splice at bytes.now (unwrap_or (heap_of self.old cell) []))
            else heap_of self.old offset) }
        ensures writes { Writes (heap_of self.old) (heap_of self.new) (cell ∷ []) }
        ensures cells { cells_of self.new.bytes ≡ cells_of self.old.bytes }
        ensures heads { self.new.heads ≡ self.old.heads }
        ensures bytes { self.new.bytes ≡ splice (cell + 4 + at) bytes.now self.old.bytes }
        ensures long { length self.new.bytes ≡ length self.old.bytes }
    {
        let from = cell as usize + 4 + at as usize;
        self.bins.write(from, bytes);
    }

    /// Copies the `len` bytes from `from` on of what the allocated cell at the offset `cell` holds to its bytes from `at`
    /// on; the two ranges may overlap. Nothing else changes, and it takes no memory.
    pub fn shift(&mut self, cell: u32, from: u32, at: u32, len: u32)
        requires exists { IsSome (heap_of self.old cell) }
        requires source { from + len ≤ length (unwrap_or (heap_of self.old cell) []) }
        requires fits { at + len ≤ length (unwrap_or (heap_of self.old cell) []) }
        ensures written { (offset : ℕ) →
            heap_of self.new offset ≡
            (if offset == cell then Some (splice at (take len (drop from (unwrap_or (heap_of self.old cell) [])))
            (unwrap_or (heap_of self.old cell) [])) else heap_of self.old offset) }
        ensures writes { Writes (heap_of self.old) (heap_of self.new) (cell ∷ []) }
        ensures cells { cells_of self.new.bytes ≡ cells_of self.old.bytes }
        ensures heads { self.new.heads ≡ self.old.heads }
        ensures bytes { self.new.bytes ≡ splice (cell + 4 + at) (take len (drop from (unwrap_or (heap_of self.old cell) []))) self.old.bytes }
        ensures long { length self.new.bytes ≡ length self.old.bytes }
    {
        self.copy(cell, from, cell, at, len);
    }

    /// Copies the `len` bytes from `from` on of what the allocated cell at the offset `source` holds to the bytes from `at`
    /// on of the one at the offset `cell`. Nothing else changes, and it takes no memory.
    pub fn copy(&mut self, source: u32, from: u32, cell: u32, at: u32, len: u32)
        requires source { IsSome (heap_of self.old source) }
        requires exists { IsSome (heap_of self.old cell) }
        requires within { from + len ≤ length (unwrap_or (heap_of self.old source) []) }
        requires fits { at + len ≤ length (unwrap_or (heap_of self.old cell) []) }
        ensures written { (offset : ℕ) →
            heap_of self.new offset ≡
            (if offset == cell then Some (splice at (take len (drop from (unwrap_or (heap_of self.old source) [])))
            (unwrap_or (heap_of self.old cell) [])) else heap_of self.old offset) }
        ensures writes { Writes (heap_of self.old) (heap_of self.new) (cell ∷ []) }
        ensures cells { cells_of self.new.bytes ≡ cells_of self.old.bytes }
        ensures heads { self.new.heads ≡ self.old.heads }
        ensures bytes { self.new.bytes ≡ splice (cell + 4 + at) (take len (drop from (unwrap_or (heap_of self.old source) []))) self.old.bytes }
        ensures long { length self.new.bytes ≡ length self.old.bytes }
    {
        let first = source as usize + 4 + from as usize;
        let place = cell as usize + 4 + at as usize;
        self.bins.copy(first, place, len as usize);
    }

    /// Frees the allocated cell at the offset `cell`. It and the free cells that touch it, which are in its bin, become one
    /// free cell. The other cells keep what they hold. It takes no memory, and constant time.
    ///
    /// Suhanov, Windows registry file format specification, section "Cell".
    pub fn free(&mut self, cell: u32)
        requires { IsSome (heap_of self.old cell) }
        ensures frees { Frees self.old.bytes self.new.bytes cell }
        ensures contents { (offset : ℕ) → heap_of self.new offset ≡ (if offset == cell then None else heap_of self.old offset) }
        ensures gone { GivesUp (heap_of self.old) (heap_of self.new) (cell ∷ []) }
        ensures long { length self.new.bytes ≡ length self.old.bytes }
    {
        free_cell(&mut self.bins, &mut self.lists, cell);
    }

    /// Allocates cells of these sizes, side by side and in their order, and puts their offsets behind those of `out`.
    ///
    /// A size counts the cell's size field, and is a multiple of 8 and not 0; all sizes together are at most 16,777,216.
    /// The cells hold zeros. They are the front of one free cell that fits, whose rest stays free: where some that fit have
    /// fewer than 16,384 bytes, of a smallest one. Only where none fits, a
    /// bin of the least size that holds them is appended first, and they are the front of its one cell: so the bins grow by
    /// at most the sizes and 4,127 bytes. No size: nothing happens.
    ///
    /// [`ArenaFault::Full`]: no free cell fits, and with a bin more there would be more than 268,435,456 bytes of bins.
    /// [`ArenaFault::Memory`]: `out` or the bins could not grow. After either the arena and `out` are as before.
    ///
    /// Suhanov, Windows registry file format specification, sections "Hive bin" and "Cell".
    pub fn carve(&mut self, sizes: &[u32], out: &mut Vec<u32>) -> Result<(), ArenaFault>
        requires sizes { AreSizes sizes.now }
        requires total { total_of sizes.now ≤ CARVE_LIMIT }
        ensures nothing { sizes.now ≡ [] → (result ≡ Ok tt) × (self.new ≡ self.old) × (out.new.items ≡ out.old.items) }
        ensures ok { OnOk result (0 < length sizes.now → (offsets : List ℕ) × (out.new.items ≡ out.old.items ++ offsets)
            × CarvesExactly self.old.bytes self.new.bytes sizes.now offsets
            × AddsCells self.old.bytes self.new.bytes sizes.now offsets) }
        ensures full { (result ≡ Err ArenaFault.Full)
            ↔ ((0 < length sizes.now) × PassesLimit self.old.bytes (total_of sizes.now)
            × NoFit self.old.bytes (total_of sizes.now)) }
        ensures err { OnErr result ((self.new ≡ self.old) × (out.new.items ≡ out.old.items)) }
        ensures grows { OnOk result (length self.new.bytes ≤ length self.old.bytes + 4127 + total_of sizes.now) }
        ensures kept { OnOk result (length self.old.bytes ≤ length self.new.bytes) }
    {
        if sizes.is_empty() {
            return Ok(());
        }
        let total = sum_of(sizes);
        let Some(fit) = self.lists.best_fit(&self.bins, total) else {
            if passes_limit(&self.bins, total) {
                return Err(ArenaFault::Full);
            }
            return carve_bin(&mut self.bins, &mut self.lists, total, sizes, out);
        };
        carve_found(&mut self.bins, &mut self.lists, fit, total, sizes, out)
    }

    /// Allocates cells of these sizes, each by itself, the largest first and of equal ones the first, and puts their offsets
    /// behind those of `out` in the order of the sizes.
    ///
    /// Each cell is taken as [`carve`](Arena::carve) of its size alone takes it: from a free cell that fits it, and only
    /// where none does from a new bin of the least size that holds it. So cells of one call need not stand side by side; the
    /// largest comes first, since the fewest holes have room for it. To find it takes time that grows with the square of how
    /// many sizes there are. A size counts the cell's size field, and is a multiple of 8, not 0 and at most 16,777,216. The
    /// cells hold zeros. The bins grow by at most the sum of the least bins for each size: 32 bytes and the size, rounded up
    /// to a multiple of 4096. No size: nothing happens.
    ///
    /// [`ArenaFault::Full`]: with all those bins there would be more than 268,435,456 bytes, whether they are needed or not;
    /// a [`carve`](Arena::carve) of all sizes may still find room. [`ArenaFault::Memory`]: `out` could not grow, or no free cell
    /// has room for all cells together and memory for all those bins was refused. After either the arena and `out` are as
    /// before. Memory for bins of one page that were not needed is kept for later calls, at most 65,536 bytes of it.
    ///
    /// Suhanov, Windows registry file format specification, sections "Hive bin" and "Cell".
    pub fn carve_each(&mut self, sizes: &[u32], out: &mut Vec<u32>) -> Result<(), ArenaFault>
        requires sizes { AreSizes sizes.now }
        requires each { AreCarvable sizes.now }
        ensures nothing { sizes.now ≡ [] → (result ≡ Ok tt) × (self.new ≡ self.old) × (out.new.items ≡ out.old.items) }
        ensures ok { OnOk result ((offsets : List ℕ) × (out.new.items ≡ out.old.items ++ offsets)
            × EachFalling self.old.bytes self.new.bytes sizes.now offsets
            × AreNew (heap_of self.old) (heap_of self.new) offsets sizes.now) }
        ensures full { (result ≡ Err ArenaFault.Full)
            ↔ ((0 < length sizes.now) × (BINS_LIMIT < length self.old.bytes + fresh_of sizes.now)) }
        ensures err { OnErr result ((self.new ≡ self.old) × (out.new.items ≡ out.old.items)) }
        ensures grows { OnOk result (length self.new.bytes ≤ length self.old.bytes + fresh_of sizes.now) }
        ensures kept { OnOk result (length self.old.bytes ≤ length self.new.bytes) }
    {
        if sizes.is_empty() {
            return Ok(());
        }
        carve_cells(
            self.alloc,
            &mut self.bins,
            &mut self.lists,
            &mut self.kept,
            sizes,
            out,
        )
    }

    /// Allocates the cells of one change, and puts their offsets behind those of `out`, in the order of the sizes: each by
    /// itself, the largest first, as [`carve_each`](Arena::carve_each) does, where the least bins for each take at most
    /// 1,310,720 bytes together and the bins with them at most 268,435,456; else side by side, as [`carve`](Arena::carve) does.
    ///
    /// A size counts the cell's size field, and is a multiple of 8 and not 0; all sizes together are at most 1,306,592. The
    /// cells hold zeros. The bins grow by at most 1,310,720 bytes, and only where no free cell has room for all cells together.
    /// No size: nothing happens.
    ///
    /// [`ArenaFault::Full`]: no free cell has room for all cells together, and with a bin more for them there would be more than
    /// 268,435,456 bytes of bins. [`ArenaFault::Memory`]: `out` or the bins could not grow. After either the arena and `out`
    /// are as before.
    ///
    /// Suhanov, Windows registry file format specification, sections "Hive bin" and "Cell".
    pub fn carve_change(&mut self, sizes: &[u32], out: &mut Vec<u32>) -> Result<(), ArenaFault>
        requires sizes { AreSizes sizes.now }
        requires total { total_of sizes.now + 4128 ≤ GROWTH_BOUND }
        ensures nothing { sizes.now ≡ [] → (result ≡ Ok tt) × (self.new ≡ self.old) × (out.new.items ≡ out.old.items) }
        ensures ok { OnOk result ((offsets : List ℕ) × (out.new.items ≡ out.old.items ++ offsets)
            × CarvesChange self.old.bytes self.new.bytes sizes.now offsets
            × AreNew (heap_of self.old) (heap_of self.new) offsets sizes.now) }
        ensures full { (result ≡ Err ArenaFault.Full)
            ↔ ((0 < length sizes.now) × PassesLimit self.old.bytes (total_of sizes.now)
            × NoFit self.old.bytes (total_of sizes.now)) }
        ensures err { OnErr result ((self.new ≡ self.old) × (out.new.items ≡ out.old.items)) }
        ensures grows { OnOk result (length self.new.bytes ≤ length self.old.bytes + GROWTH_BOUND) }
        ensures growth { OnOk result (GrowsFor self.old.bytes self.new.bytes sizes.now) }
        ensures kept { OnOk result (length self.old.bytes ≤ length self.new.bytes) }
    {
        let Some(fresh) = fresh_within(sizes, GROWTH_BOUND) else {
            return self.carve(sizes, out);
        };
        if fresh > BINS_LIMIT - self.bins_size() {
            return self.carve(sizes, out);
        }
        self.carve_each(sizes, out)
    }
}

// What the allocated cell holds that these bytes begin with.
#[tactic(auto, unfolding(reg_heap::specs::ByteWords::word))]
fn content_of(bytes: &[u8]) -> &[u8]
    requires eight { 8 ≤ size_in (word bytes.now 0) }
    requires within { size_in (word bytes.now 0) ≤ length bytes.now }
    ensures { result.now ≡ take (size_in (word bytes.now 0) - 4) (drop 4 bytes.now) }
{
    let size = field_size(LittleEndian::read_u32(bytes));
    &bytes[4..size as usize]
}
