//! A new bin at the end of the bins.
//!
//! Suhanov, Windows registry file format specification, section "Hive bin".
ghost use Rattle.std.specs.Prelude.{◌≡◌, ◌+◌, ◌-◌, ◌≤◌, ◌<◌, ◌%◌, ◌/◌, ℕ, length, replicate, OnOk, IfOk, true, false};
ghost use Rattle.reg_heap.specs.declared.limits.TheConstants.{BINS_LIMIT};
ghost use Rattle.reg_arena.specs.declared.TheConstants.{CARVE_LIMIT};
ghost use Rattle.reg_arena.specs.declared.free_lists.FreeLists.{FreeLists};
ghost use Rattle.reg_arena.specs.Arena.{IsArena};
ghost use Rattle.reg_arena.specs.Internal.ListedCells.{HasRoom, IsAdded, IsIndexed, IsListed};
ghost use Rattle.reg_arena.specs.Internal.BinParts.{IsSplit};
ghost use Rattle.reg_arena.specs.Internal.Reserved.{AreReserved, KeepsRoom};
ghost use Rattle.reg_arena.specs.NewBin.{IsBinSize, PassesLimit, HasRoomForBin, headed};

use crate::free_lists::{Fit, FreeLists};
use crate::links::put_free;
use reg_bins::BinRow;
use reg_heap::limits::{BINS_LIMIT, NONE};
use std::alloc::AllocError;

/// The bytes of a bin's header.
pub const HEADER_SIZE: u32 = 32;

/// A bin's size is a multiple of so many bytes.
pub const PAGE_SIZE: u32 = 4096;

/// The letters `hbin`.
const SIGNATURE: u32 = 0x6E69_6268;

// The least size of a bin that has room for `total` bytes of cells.
pub fn bin_size(total: u32) -> u32
    requires { total ≤ CARVE_LIMIT }
    ensures least { IsBinSize result total }
    ensures small { result ≤ total + 4128 }
{
    (HEADER_SIZE + total).next_multiple_of(PAGE_SIZE)
}

// Whether a bin more, with room for `total` bytes of cells, would pass the limit.
pub fn passes_limit(bins: &BinRow, total: u32) -> bool
    requires total { total ≤ CARVE_LIMIT }
    requires small { length bins.now.items ≤ BINS_LIMIT }
    ensures passes { result ≡ true → PassesLimit bins.now.items total }
    ensures room { result ≡ false → HasRoomForBin bins.now.items total }
{
    bin_size(total) > BINS_LIMIT - bins.len() as u32
}

// Writes a bin's header, the zeros at its end left out.
fn put_header(bins: &mut BinRow, at: u32, size: u32)
    requires { at + 12 ≤ length bins.old.items }
    ensures bytes { bins.new.items ≡ headed at size bins.old.items }
    ensures room { bins.new.room ≡ bins.old.room }
    ensures parts { bins.new.parts ≡ bins.old.parts }
{
    bins.put_word(at as usize, SIGNATURE);
    bins.put_word(at as usize + 4, at);
    bins.put_word(at as usize + 8, size);
}

// A bin more at the end, with one free cell, which comes into no list. Its bytes are zeros as yet, and there is room for it.
pub fn add_bin(bins: &mut BinRow, blank: Vec<u8>) -> Fit
    requires some { 40 ≤ length blank.items }
    requires pages { length blank.items % 4096 ≡ 0 }
    requires zeros { blank.items ≡ replicate (length blank.items) 0 }
    requires limit { length bins.old.items + length blank.items ≤ BINS_LIMIT }
    requires room { length bins.old.items + length blank.items ≤ bins.old.room }
    ensures size { result.size ≡ length blank.items - 32 }
    ensures added { (lists : FreeLists) → (total : ℕ) → IsIndexed bins.old.items lists → HasRoom ((length bins.old.items + length blank.items) / 8) lists →
        IsBinSize (length blank.items) total → 0 < total → IsAdded bins.old.items bins.new.items lists result.cell result.size total }
    ensures split { IsArena bins.old.items → IsSplit bins.old.items bins.old.parts → IsSplit bins.new.items bins.new.parts }
    ensures room { bins.new.room ≡ bins.old.room }
{
    let at = bins.len() as u32;
    let size = blank.len() as u32;
    bins.push(blank);
    put_header(bins, at, size);
    let fit = Fit {
        cell: at + HEADER_SIZE,
        size: size - HEADER_SIZE,
    };
    put_free(bins, fit.cell, fit.size, NONE);
    fit
}

// The bytes of a bin of this size, zeros as yet, and room for it in the tables.
pub fn blank_bin(bins: &mut BinRow, lists: &mut FreeLists, size: u32) -> Result<Vec<u8>, AllocError>
    requires pages { size % 4096 ≡ 0 }
    requires limit { length bins.old.items + size ≤ BINS_LIMIT }
    ensures items { bins.new.items ≡ bins.old.items }
    ensures parts { bins.new.parts ≡ bins.old.parts }
    ensures listed { (free : ℕ → ℕ) → IsListed bins.old.items free lists.old → IsListed bins.old.items free lists.new }
    ensures heads { lists.new.heads ≡ lists.old.heads }
    ensures blank { IfOk result (λ blank. blank.items ≡ replicate size 0) }
    ensures ok { OnOk result (AreReserved (length bins.old.items + size) bins.new.room lists.new) }
    ensures keeps { KeepsRoom bins.old.room lists.old bins.new.room lists.new }
{
    lists.make_room((bins.len() + size as usize + 7) / 8)?;
    bins.reserve(size as usize)?;
    bins.blank(size as usize)
}
