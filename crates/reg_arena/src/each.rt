//! Cells carved one after the other, each by itself, the largest first.
ghost use Rattle.std.specs.Prelude.{◌≡◌, ◌↔◌, ◌+◌, ◌-◌, ◌≤◌, ◌<◌, ◌%◌, ◌⊎◌, ℕ, List, [], ◌∷◌, ◌++◌, length, replicate, set, take, get_or, true};
ghost use Rattle.std.specs.Prelude.{vec_len, vec_capacity, Err, IfOk, OnErr, OnOk, MatchOption, ⊤};
ghost use Rattle.reg_heap.specs.declared.limits.TheConstants.{BINS_LIMIT, NONE};
ghost use Rattle.reg_heap.specs.Heaps.{AreNew};
ghost use Rattle.reg_heap.specs.Kinds.{times};
ghost use Rattle.reg_arena.specs.declared.TheConstants.{CARVE_LIMIT};
ghost use Rattle.reg_arena.specs.Cells.{cell_at};
ghost use Rattle.reg_arena.specs.NewCells.{total_of, AreSizes};
ghost use Rattle.reg_arena.specs.Carves.{CarvesExactly, NoFit};
ghost use Rattle.reg_arena.specs.EachCell.{fresh_bin, fresh_of, AreCarvable, EachFalling, IsCarvedBefore};
ghost use Rattle.reg_arena.specs.Internal.ListedCells.{IsIndexed};
ghost use Rattle.reg_arena.specs.Internal.BinParts.{IsSplit};
ghost use Rattle.reg_arena.specs.Internal.Reserved.{AreReserved, IsRoomFor, KeepsRoom};
ghost use Rattle.reg_arena.specs.Internal.Spares.{ArePages, AreSpare, HasSpare, IsPage};

use crate::ArenaFault;
use crate::bin::{PAGE_SIZE, bin_size};
use crate::carve::{carve_blank, carve_found, sum_of};
use crate::free_lists::FreeLists;
use reg_bins::BinRow;
use reg_heap::limits::{BINS_LIMIT, NONE};
use std::alloc::{AllocError, Global};

/// Memory for so many bins of one page is kept from call to call, at most.
const KEPT: usize = 16;

// The bytes of the least bins for cells of these sizes, one for each, where they are at most `limit`.
pub fn fresh_within(sizes: &[u32], limit: u32) -> Option<u32>
    requires { AreCarvable sizes.now }
    ensures { MatchOption result (limit < fresh_of sizes.now) (λ fresh. (fresh ≡ fresh_of sizes.now) × (fresh ≤ limit)) }
{
    let mut fresh = 0;
    for size in sizes {
        let bin = bin_size(*size);
        if bin > limit - fresh {
            return None;
        }
        fresh += bin;
    }
    Some(fresh)
}

// Memory for a bin to come, until it is taken. Nothing is written into it before, since most is not taken at once.
#[derive(Drop)]
pub struct Spare {
    pub memory: Option<Vec<u8>>,
}

// Memory for a bin of one page that was kept, if there is some.
fn kept_page(kept: &mut Vec<Spare>) -> Option<Vec<u8>>
    ensures page { MatchOption result ⊤ (λ memory. (memory.items ≡ []) × (vec_capacity memory ≡ 4096)) }
    ensures pages { ArePages kept.old.items → ArePages kept.new.items }
{
    let memory = kept.pop()?.memory?;
    if memory.is_empty() && memory.capacity() == PAGE_SIZE as usize {
        return Some(memory);
    }
    None
}

// Memory for a bin, no more than it takes: for one of one page what was kept, and else new one.
fn memory_for(alloc: Global, kept: &mut Vec<Spare>, size: u32) -> Result<Vec<u8>, AllocError>
    ensures exact { IfOk result (λ memory. (memory.items ≡ []) × (vec_capacity memory ≡ size)) }
    ensures pages { ArePages kept.old.items → ArePages kept.new.items }
{
    if size == PAGE_SIZE {
        if let Some(memory) = kept_page(kept) {
            return Ok(memory);
        }
    }
    Vec::with_capacity(alloc, size as usize)
}

// Memory for a bin for each cell.
fn make_spares(
    alloc: Global,
    kept: &mut Vec<Spare>,
    sizes: &[u32],
) -> Result<Vec<Spare>, AllocError>
    requires { AreCarvable sizes.now }
    ensures spares { IfOk result (λ spares. AreSpare NONE sizes.now (replicate (length sizes.now) NONE) spares.items) }
    ensures pages { ArePages kept.old.items → ArePages kept.new.items }
{
    let mut spares = Vec::new(alloc);
    for size in sizes {
        let memory = memory_for(alloc, kept, bin_size(*size))?;
        spares.push(Spare {
            memory: Some(memory),
        })?;
    }
    Ok(spares)
}

// Room for a bin for each cell, and memory for it; nothing where one free cell has room for all of them, since then no bin is needed.
fn spares_for(
    alloc: Global,
    bins: &mut BinRow,
    lists: &mut FreeLists,
    kept: &mut Vec<Spare>,
    sizes: &[u32],
    fresh: u32,
) -> Result<Vec<Spare>, AllocError>
    requires arena { IsIndexed bins.old.items lists.old }
    requires sizes { AreSizes sizes.now }
    requires each { AreCarvable sizes.now }
    requires some { 0 < length sizes.now }
    requires fresh { fresh ≡ fresh_of sizes.now }
    requires limit { length bins.old.items + fresh ≤ BINS_LIMIT }
    ensures items { bins.new.items ≡ bins.old.items }
    ensures parts { bins.new.parts ≡ bins.old.parts }
    ensures arena { IsIndexed bins.new.items lists.new }
    ensures heads { lists.new.heads ≡ lists.old.heads }
    ensures ok { IfOk result (λ spares. NoFit bins.old.items (total_of sizes.now) →
        AreReserved (length bins.old.items + fresh_of sizes.now) bins.new.room lists.new
        × AreSpare NONE sizes.now (replicate (length sizes.now) NONE) spares.items) }
    ensures pages { ArePages kept.old.items → ArePages kept.new.items }
{
    if let Some(_fit) = lists.best_fit(bins, sum_of(sizes)) {
        return Ok(Vec::new(alloc));
    }
    lists.make_room((bins.len() + fresh as usize + 7) / 8)?;
    bins.reserve(fresh as usize)?;
    make_kept_room(kept)?;
    make_spares(alloc, kept, sizes)
}

// Whether it is memory for a bin of one page.
fn is_page(spare: &Spare) -> bool
    ensures { (result ≡ true) ↔ IsPage spare.now }
{
    match &spare.memory {
        Some(memory) => memory.capacity() == PAGE_SIZE as usize,
        None => false,
    }
}

// Room for all memory that is kept, so that none is asked for once a cell was carved.
fn make_kept_room(kept: &mut Vec<Spare>) -> Result<(), AllocError>
    ensures { kept.new.items ≡ kept.old.items }
{
    kept.reserve(KEPT.saturating_sub(kept.len()))
}

// Keeps memory for a bin of one page that was not needed, as long as there is little of it. Else it is given back. There is room for it.
fn keep_page(kept: &mut Vec<Spare>, spare: Spare)
    ensures { ArePages kept.old.items → ArePages kept.new.items }
{
    if kept.len() < KEPT && is_page(&spare) {
        let _ = kept.push(spare);
    }
}

// Keeps of the memory for bins that were not needed what is for bins of one page, as long as there is little of it.
fn keep_pages(kept: &mut Vec<Spare>, spares: Vec<Spare>)
    ensures { ArePages kept.old.items → ArePages kept.new.items }
{
    for spare in spares {
        keep_page(kept, spare);
    }
}

// Takes the memory for a place's bin, where there is some.
fn take_spare(spares: &mut Vec<Spare>, place: usize) -> Option<Vec<u8>>
    ensures taken { (size : ℕ) → HasSpare spares.old.items place size →
        MatchOption result ⊥ (λ memory. IsRoomFor memory.items (vec_capacity memory) size) }
    ensures left { (sizes offsets : List ℕ) → (offset : ℕ) → AreSpare NONE sizes offsets spares.old.items → (offset ≡ NONE → ⊥) →
        AreSpare NONE sizes (set offsets place offset) spares.new.items }
{
    if place >= spares.len() {
        return None;
    }
    spares[place].memory.take()
}

// Zeros for a bin, written into memory that has room for them.
fn blank_in(memory: Vec<u8>, size: u32) -> Vec<u8>
    requires none { memory.items ≡ [] }
    requires room { size ≤ vec_capacity memory }
    ensures { result.items ≡ replicate size 0 }
{
    let mut bytes = memory;
    let _ = bytes.resize(size as usize, 0);
    bytes
}

// Carves one cell, for which there is room: for its offset, and where no free cell fits it for a bin. Only then the memory for the
// place's bin is taken.
fn carve_one(
    bins: &mut BinRow,
    lists: &mut FreeLists,
    size: u32,
    out: &mut Vec<u32>,
    spares: &mut Vec<Spare>,
    place: usize,
)
    requires arena { IsIndexed bins.old.items lists.old }
    requires split { IsSplit bins.old.items bins.old.parts }
    requires size { (0 < size) × (size % 8 ≡ 0) }
    requires small { size ≤ CARVE_LIMIT }
    requires limit { length bins.old.items + fresh_bin size ≤ BINS_LIMIT }
    requires reserved { NoFit bins.old.items size → AreReserved (length bins.old.items + fresh_bin size) bins.old.room lists.old }
    requires spare { NoFit bins.old.items size → HasSpare spares.old.items place size }
    requires room { vec_len out.old + 1 ≤ vec_capacity out.old }
    ensures arena { IsIndexed bins.new.items lists.new }
    ensures split { IsSplit bins.new.items bins.new.parts }
    ensures carves { (offset : ℕ) × (out.new.items ≡ out.old.items ++ offset ∷ [])
        × CarvesExactly bins.old.items bins.new.items (size ∷ []) (offset ∷ []) }
    ensures keeps { KeepsRoom bins.old.room lists.old bins.new.room lists.new }
    ensures out_capacity { vec_capacity out.old ≤ vec_capacity out.new }
    ensures left { (sizes offsets : List ℕ) → (offset : ℕ) → AreSpare NONE sizes offsets spares.old.items → (offset ≡ NONE → ⊥) →
        AreSpare NONE sizes (set offsets place offset) spares.new.items }
{
    let Some(fit) = lists.best_fit(bins, size) else {
        let Some(memory) = take_spare(spares, place) else {
            return;
        };
        let blank = blank_in(memory, bin_size(size));
        carve_blank(bins, lists, blank, size, &[size], out);
        return;
    };
    let _ = carve_found(bins, lists, fit, size, &[size], out);
}

// Carves one cell, for which there is room, and puts its offset into `out`, at the place counted from `from` on.
fn carve_to(
    bins: &mut BinRow,
    lists: &mut FreeLists,
    size: u32,
    out: &mut Vec<u32>,
    from: usize,
    spares: &mut Vec<Spare>,
    place: usize,
)
    requires arena { IsIndexed bins.old.items lists.old }
    requires split { IsSplit bins.old.items bins.old.parts }
    requires size { (0 < size) × (size % 8 ≡ 0) }
    requires small { size ≤ CARVE_LIMIT }
    requires limit { length bins.old.items + fresh_bin size ≤ BINS_LIMIT }
    requires reserved { NoFit bins.old.items size → AreReserved (length bins.old.items + fresh_bin size) bins.old.room lists.old }
    requires spare { NoFit bins.old.items size → HasSpare spares.old.items place size }
    requires room { vec_len out.old + 1 ≤ vec_capacity out.old }
    requires place { from + place < length out.old.items }
    ensures arena { IsIndexed bins.new.items lists.new }
    ensures split { IsSplit bins.new.items bins.new.parts }
    ensures carves { (offset : ℕ) × (out.new.items ≡ set out.old.items (from + place) offset)
        × CarvesExactly bins.old.items bins.new.items (size ∷ []) (offset ∷ []) }
    ensures keeps { KeepsRoom bins.old.room lists.old bins.new.room lists.new }
    ensures out_capacity { vec_capacity out.old ≤ vec_capacity out.new }
    ensures left { (sizes offsets : List ℕ) → (offset : ℕ) → AreSpare NONE sizes offsets spares.old.items → (offset ≡ NONE → ⊥) →
        AreSpare NONE sizes (set offsets place offset) spares.new.items }
{
    carve_one(bins, lists, size, out, spares, place);
    let Some(offset) = out.pop() else {
        return;
    };
    out[from + place] = offset;
}

// The place of the largest of the sizes whose offset isn't there yet, the first of equal ones.
fn largest_left(sizes: &[u32], offsets: &[u32]) -> usize
    requires sizes { AreSizes sizes.now }
    requires long { length offsets.now ≡ length sizes.now }
    requires some { 0 < times NONE offsets.now }
    ensures within { result < length sizes.now }
    ensures left { get_or offsets.now result 0 ≡ NONE }
    ensures first { (place : ℕ) → place < length sizes.now → get_or offsets.now place 0 ≡ NONE →
        (place ≡ result) ⊎ IsCarvedBefore sizes.now result place }
{
    let mut most = 0;
    let mut largest = 0;
    for place in 0..sizes.len() {
        if offsets[place] == NONE && sizes[place] > most {
            most = sizes[place];
            largest = place;
        }
    }
    largest
}

// Carves a cell of each size, the largest first, and puts their offsets in the order of the sizes. There is room for all: for the
// offsets, and where no free cell has room for all cells together for a bin for each.
fn carve_all(
    bins: &mut BinRow,
    lists: &mut FreeLists,
    sizes: &[u32],
    spares: &mut Vec<Spare>,
    out: &mut Vec<u32>,
)
    requires arena { IsIndexed bins.old.items lists.old }
    requires split { IsSplit bins.old.items bins.old.parts }
    requires sizes { AreSizes sizes.now }
    requires each { AreCarvable sizes.now }
    requires limit { length bins.old.items + fresh_of sizes.now ≤ BINS_LIMIT }
    requires reserved { NoFit bins.old.items (total_of sizes.now) →
        AreReserved (length bins.old.items + fresh_of sizes.now) bins.old.room lists.old
        × AreSpare NONE sizes.now (replicate (length sizes.now) NONE) spares.old.items }
    requires room { vec_len out.old + length sizes.now + 1 ≤ vec_capacity out.old }
    ensures arena { IsIndexed bins.new.items lists.new }
    ensures split { IsSplit bins.new.items bins.new.parts }
    ensures each { (offsets : List ℕ) × (out.new.items ≡ out.old.items ++ offsets)
        × EachFalling bins.old.items bins.new.items sizes.now offsets
        × AreNew (cell_at bins.old.items) (cell_at bins.new.items) offsets sizes.now }
    ensures grows { length bins.new.items ≤ length bins.old.items + fresh_of sizes.now }
    ensures kept { length bins.old.items ≤ length bins.new.items }
{
    let from = out.len();
    let _ = out.resize(from + sizes.len(), NONE);
    for _turn in 0..sizes.len() {
        let place = largest_left(sizes, &out[from..]);
        carve_to(bins, lists, sizes[place], out, from, spares, place);
    }
}

// Carves a cell of each size, the largest first. All memory is asked for, and the limit is seen to, before the first.
pub fn carve_cells(
    alloc: Global,
    bins: &mut BinRow,
    lists: &mut FreeLists,
    kept: &mut Vec<Spare>,
    sizes: &[u32],
    out: &mut Vec<u32>,
) -> Result<(), ArenaFault>
    requires arena { IsIndexed bins.old.items lists.old }
    requires split { IsSplit bins.old.items bins.old.parts }
    requires sizes { AreSizes sizes.now }
    requires each { AreCarvable sizes.now }
    requires some { 0 < length sizes.now }
    ensures arena { IsIndexed bins.new.items lists.new }
    ensures split { IsSplit bins.new.items bins.new.parts }
    ensures ok { OnOk result ((offsets : List ℕ) × (out.new.items ≡ out.old.items ++ offsets)
        × EachFalling bins.old.items bins.new.items sizes.now offsets
        × AreNew (cell_at bins.old.items) (cell_at bins.new.items) offsets sizes.now) }
    ensures full { (result ≡ Err ArenaFault.Full) ↔ (BINS_LIMIT < length bins.old.items + fresh_of sizes.now) }
    ensures err { OnErr result ((bins.new.items ≡ bins.old.items) × (lists.new.heads ≡ lists.old.heads) × (out.new.items ≡ out.old.items)) }
    ensures grows { OnOk result (length bins.new.items ≤ length bins.old.items + fresh_of sizes.now) }
    ensures kept { OnOk result (length bins.old.items ≤ length bins.new.items) }
    ensures pages { ArePages kept.old.items → ArePages kept.new.items }
{
    let Some(fresh) = fresh_within(sizes, BINS_LIMIT - bins.len() as u32) else {
        return Err(ArenaFault::Full);
    };
    if out.reserve(sizes.len() + 1).is_err() {
        return Err(ArenaFault::Memory);
    }
    let Ok(mut spares) = spares_for(alloc, bins, lists, kept, sizes, fresh) else {
        return Err(ArenaFault::Memory);
    };
    carve_all(bins, lists, sizes, &mut spares, out);
    keep_pages(kept, spares);
    Ok(())
}
