//! Allocated cells from one free cell.
ghost use Rattle.std.specs.Prelude.{◌≡◌, ◌+◌, ◌-◌, ◌≤◌, ◌<◌, ℕ, List, ◌++◌, length, vec_len, vec_capacity, IfErr, IsOk, OnErr, OnOk};
ghost use Rattle.reg_arena.specs.declared.TheConstants.{CARVE_LIMIT};
ghost use Rattle.reg_arena.specs.NewCells.{total_of, AreSizes, offsets_of};
ghost use Rattle.reg_arena.specs.Carves.{AddsCells, Carves, CarvesExactly, NoFit};
ghost use Rattle.reg_arena.specs.NewBin.{HasRoomForBin};
ghost use Rattle.reg_heap.specs.declared.limits.TheConstants.{BINS_LIMIT};
ghost use Rattle.reg_arena.specs.Internal.BinParts.{IsSplit};
ghost use Rattle.reg_arena.specs.Internal.Reserved.{AreReserved, IsBlank, KeepsRoom};
ghost use Rattle.reg_arena.specs.Internal.ListedCells.{IsIndexed, HasFit, LacksCell};

use crate::ArenaFault;
use crate::bin::{add_bin, bin_size, blank_bin};
use crate::cut::cut;
use crate::free_lists::{Fit, FreeLists};
use reg_bins::BinRow;

// All sizes together.
pub fn sum_of(sizes: &[u32]) -> u32
    requires { total_of sizes.now ≤ BINS_LIMIT }
    ensures { result ≡ total_of sizes.now }
{
    let mut total = 0;
    for size in sizes {
        total += *size;
    }
    total
}

// Cuts cells from the front of a free cell that is in no list. Their rest, if there is one, comes into its list. There is
// room for their offsets.
fn cut_front(
    bins: &mut BinRow,
    lists: &mut FreeLists,
    fit: Fit,
    total: u32,
    sizes: &[u32],
    out: &mut Vec<u32>,
)
    requires lacks { LacksCell bins.old.items lists.old fit.cell fit.size }
    requires split { IsSplit bins.old.items bins.old.parts }
    requires fits { total ≤ fit.size }
    requires sizes { AreSizes sizes.now }
    requires total { total ≡ total_of sizes.now }
    requires positive { 0 < total }
    requires room { vec_len out.old + length sizes.now ≤ vec_capacity out.old }
    ensures arena { IsIndexed bins.new.items lists.new }
    ensures split { IsSplit bins.new.items bins.new.parts }
    ensures carves { Carves bins.old.items bins.new.items sizes.now (offsets_of fit.cell sizes.now) }
    ensures out { out.new.items ≡ out.old.items ++ offsets_of fit.cell sizes.now }
    ensures keeps { KeepsRoom bins.old.room lists.old bins.new.room lists.new }
    ensures out_capacity { vec_capacity out.old ≤ vec_capacity out.new }
{
    lists.insert(bins, fit.cell + total, fit.size - total);
    cut(bins, fit.cell, sizes, out);
}

// Cuts cells from a free cell of the lists. There is room for their offsets.
fn carve_at(
    bins: &mut BinRow,
    lists: &mut FreeLists,
    fit: Fit,
    total: u32,
    sizes: &[u32],
    out: &mut Vec<u32>,
)
    requires fit { HasFit bins.old.items lists.old total fit }
    requires split { IsSplit bins.old.items bins.old.parts }
    requires sizes { AreSizes sizes.now }
    requires total { total ≡ total_of sizes.now }
    requires positive { 0 < total }
    requires room { vec_len out.old + length sizes.now ≤ vec_capacity out.old }
    ensures arena { IsIndexed bins.new.items lists.new }
    ensures split { IsSplit bins.new.items bins.new.parts }
    ensures carves { Carves bins.old.items bins.new.items sizes.now (offsets_of fit.cell sizes.now) }
    ensures out { out.new.items ≡ out.old.items ++ offsets_of fit.cell sizes.now }
    ensures keeps { KeepsRoom bins.old.room lists.old bins.new.room lists.new }
    ensures out_capacity { vec_capacity out.old ≤ vec_capacity out.new }
{
    lists.remove(bins, fit.cell, fit.size);
    cut_front(bins, lists, fit, total, sizes, out);
}

// Carves from a free cell of the lists.
#[tactic(auto, using(crate::proofs::Carving::CarvedCells::adds_cells, crate::proofs::Carving::BinGrowth::grows_none, crate::proofs::Carving::BinGrowth::keeps))]
pub fn carve_found(
    bins: &mut BinRow,
    lists: &mut FreeLists,
    fit: Fit,
    total: u32,
    sizes: &[u32],
    out: &mut Vec<u32>,
) -> Result<(), ArenaFault>
    requires fit { HasFit bins.old.items lists.old total fit }
    requires split { IsSplit bins.old.items bins.old.parts }
    requires sizes { AreSizes sizes.now }
    requires total { total ≡ total_of sizes.now }
    requires positive { 0 < total }
    ensures arena { IsIndexed bins.new.items lists.new }
    ensures split { IsSplit bins.new.items bins.new.parts }
    ensures ok { OnOk result ((offsets : List ℕ) × (out.new.items ≡ out.old.items ++ offsets)
        × CarvesExactly bins.old.items bins.new.items sizes.now offsets
        × AddsCells bins.old.items bins.new.items sizes.now offsets) }
    ensures fault { IfErr result (λ fault. fault ≡ ArenaFault.Memory) }
    ensures err { OnErr result ((bins.new.items ≡ bins.old.items) × (lists.new.heads ≡ lists.old.heads) × (out.new.items ≡ out.old.items)) }
    ensures grows { OnOk result (length bins.new.items ≤ length bins.old.items + 4127 + total_of sizes.now) }
    ensures kept { OnOk result (length bins.old.items ≤ length bins.new.items) }
    ensures succeeds { vec_len out.old + length sizes.now ≤ vec_capacity out.old → IsOk result }
    ensures keeps { KeepsRoom bins.old.room lists.old bins.new.room lists.new }
    ensures out_capacity { vec_capacity out.old ≤ vec_capacity out.new }
{
    if out.reserve(sizes.len()).is_err() {
        return Err(ArenaFault::Memory);
    }
    carve_at(bins, lists, fit, total, sizes, out);
    Ok(())
}

// Carves from the free cell of a new bin. Its bytes are zeros as yet, and there is room for it, and for the offsets.
pub fn carve_blank(
    bins: &mut BinRow,
    lists: &mut FreeLists,
    blank: Vec<u8>,
    total: u32,
    sizes: &[u32],
    out: &mut Vec<u32>,
)
    requires arena { IsIndexed bins.old.items lists.old }
    requires split { IsSplit bins.old.items bins.old.parts }
    requires none { NoFit bins.old.items total }
    requires sizes { AreSizes sizes.now }
    requires total { total ≡ total_of sizes.now }
    requires positive { 0 < total }
    requires blank { IsBlank blank.items total }
    requires limit { length bins.old.items + length blank.items ≤ BINS_LIMIT }
    requires reserved { AreReserved (length bins.old.items + length blank.items) bins.old.room lists.old }
    requires room { vec_len out.old + length sizes.now ≤ vec_capacity out.old }
    ensures arena { IsIndexed bins.new.items lists.new }
    ensures split { IsSplit bins.new.items bins.new.parts }
    ensures carves { (offsets : List ℕ) × (out.new.items ≡ out.old.items ++ offsets)
        × CarvesExactly bins.old.items bins.new.items sizes.now offsets
        × AddsCells bins.old.items bins.new.items sizes.now offsets }
    ensures grows { length bins.new.items ≤ length bins.old.items + 4127 + total_of sizes.now }
    ensures kept { length bins.old.items ≤ length bins.new.items }
    ensures keeps { KeepsRoom bins.old.room lists.old bins.new.room lists.new }
    ensures out_capacity { vec_capacity out.old ≤ vec_capacity out.new }
{
    let fit = add_bin(bins, blank);
    cut_front(bins, lists, fit, total, sizes, out);
}

// Carves from the free cell of a new bin.
pub fn carve_bin(
    bins: &mut BinRow,
    lists: &mut FreeLists,
    total: u32,
    sizes: &[u32],
    out: &mut Vec<u32>,
) -> Result<(), ArenaFault>
    requires arena { IsIndexed bins.old.items lists.old }
    requires split { IsSplit bins.old.items bins.old.parts }
    requires none { NoFit bins.old.items total }
    requires sizes { AreSizes sizes.now }
    requires total { total ≡ total_of sizes.now }
    requires positive { 0 < total }
    requires small { total ≤ CARVE_LIMIT }
    requires room { HasRoomForBin bins.old.items total }
    ensures arena { IsIndexed bins.new.items lists.new }
    ensures split { IsSplit bins.new.items bins.new.parts }
    ensures ok { OnOk result ((offsets : List ℕ) × (out.new.items ≡ out.old.items ++ offsets)
        × CarvesExactly bins.old.items bins.new.items sizes.now offsets
        × AddsCells bins.old.items bins.new.items sizes.now offsets) }
    ensures fault { IfErr result (λ fault. fault ≡ ArenaFault.Memory) }
    ensures err { OnErr result ((bins.new.items ≡ bins.old.items) × (lists.new.heads ≡ lists.old.heads) × (out.new.items ≡ out.old.items)) }
    ensures grows { OnOk result (length bins.new.items ≤ length bins.old.items + 4127 + total_of sizes.now) }
    ensures kept { OnOk result (length bins.old.items ≤ length bins.new.items) }
{
    if out.reserve(sizes.len()).is_err() {
        return Err(ArenaFault::Memory);
    }
    let Ok(blank) = blank_bin(bins, lists, bin_size(total)) else {
        return Err(ArenaFault::Memory);
    };
    carve_blank(bins, lists, blank, total, sizes, out);
    Ok(())
}
