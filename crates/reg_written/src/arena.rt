//! Bins as an arena has them.
//!
//! Suhanov, Windows registry file format specification, sections "Hive bin" and "Cell".

ghost use Rattle.std.specs.Prelude.{◌≡◌, ◌↔◌, ◌+◌, ◌≤◌, ℕ, List, IsTrue, false, not, length};
ghost use Rattle.reg_heap.specs.declared.limits.TheConstants.{BINS_LIMIT};
ghost use Rattle.reg_heap.specs.ByteWords.{word};
ghost use Rattle.reg_arena.specs.declared.Cell.{Cell};
ghost use Rattle.reg_arena.specs.Cells.{Bin, Tiles, AreBins, is_allocated_in};
ghost use Rattle.reg_arena.specs.Arena.{IsArena};
ghost use Rattle.reg_arena.specs.Internal.CellWalks.{IsTiled};
ghost use Rattle.reg_written.specs.Internal.ArenaTests.{is_blank_at, are_apart_from, is_good_bin};

use crate::content::{size_at, word_at};
use crate::values::are_zero;

/// Whether what a bin's header has no use for, its last 20 bytes, is zeros.
fn is_blank(bins: &[u8], at: usize) -> bool
    requires { at + 32 ≤ length bins.now }
    ensures { result ≡ is_blank_at bins.now at }
{
    are_zero(&bins[at + 12..at + 32])
}

/// Whether the cell at a place is free.
fn is_free(bins: &[u8], at: usize) -> bool
    requires { at + 4 ≤ length bins.now }
    ensures { result ≡ not (is_allocated_in (word bins.now at)) }
{
    word_at(bins, at) < 0x8000_0000
}

/// Whether no free cell of a bin, whose cells stand from `from` to `stop`, touches another.
fn are_apart(bins: &[u8], from: usize, stop: usize) -> bool
    requires tiled { IsTiled bins.now from stop }
    requires within { stop ≤ length bins.now }
    requires small { length bins.now ≤ BINS_LIMIT }
    ensures { (cells : List Cell) → Tiles bins.now from stop cells → result ≡ are_apart_from false cells }
{
    let mut at = from;
    let mut behind = false;
    while at < stop {
        let free = is_free(bins, at);
        if behind & free {
            return false;
        }
        behind = free;
        at += size_at(bins, at) as usize;
    }
    true
}

/// Whether a bin, from `at` to `stop`, is as an arena has it.
fn is_good(bins: &[u8], at: usize, stop: usize) -> bool
    requires tiled { IsTiled bins.now (at + 32) stop }
    requires within { (at + 32 ≤ stop) × (stop ≤ length bins.now) }
    requires small { length bins.now ≤ BINS_LIMIT }
    ensures { (cells : List Cell) → Tiles bins.now (at + 32) stop cells → result ≡ is_good_bin bins.now at cells }
{
    is_blank(bins, at) && are_apart(bins, at + 32, stop)
}

/// Whether bins, of which the headers and the sizes of all cells are good, are as an arena has them: what a bin's header has no use for
/// is zeros, and no free cell touches another.
pub fn is_arena(bins: &[u8]) -> bool
    requires tiled { (layout : List Bin) × AreBins bins.now 0 layout }
    requires small { length bins.now ≤ BINS_LIMIT }
    ensures { IsTrue result ↔ IsArena bins.now }
{
    let mut at = 0;
    while at < bins.len() {
        let stop = at + word_at(bins, at + 8) as usize;
        if !is_good(bins, at, stop) {
            return false;
        }
        at = stop;
    }
    true
}
