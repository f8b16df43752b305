//! The bad header or the bad size for which foreign bins aren't scanned.
//!
//! Suhanov, Windows registry file format specification, sections "Hive bin" and "Cell".

ghost use Rattle.std.specs.Prelude.{◌≡◌, ◌+◌, ◌<◌, ◌≤◌, ◌%◌, ℕ, suc, true, false, is_some, Some, length, List};
ghost use Rattle.reg_heap.specs.declared.limits.TheConstants.{BINS_LIMIT};
ghost use Rattle.reg_arena.specs.Cells.{BinPlace, bins_of};
ghost use Rattle.reg_tree_image.specs.FaultPlaces.{bad_bin, bad_cell, sizes_end};

use crate::cells::{size_at, word_at};
use crate::scan::{is_header, is_size};

/// The place of the first bad header; the end of the bins where none is bad.
pub fn bad_header(bins: &[u8]) -> u32
    requires pages { length bins.now % 4096 ≡ 0 }
    requires small { length bins.now ≤ BINS_LIMIT }
    ensures { result ≡ bad_bin bins.now }
{
    let mut at = 0;
    while at < bins.len() {
        if !is_header(bins, at) {
            return at as u32;
        }
        at += word_at(bins, at + 8) as usize;
    }
    at as u32
}

/// The place of the first bad size in a bin whose cells begin at `from`; its end where none is bad.
fn end_of_sizes(bins: &[u8], from: usize, stop: usize) -> usize
    requires eights { (from % 8 ≡ 0) × (stop % 8 ≡ 0) }
    requires within { (from ≤ stop) × (stop ≤ length bins.now) }
    requires small { length bins.now ≤ BINS_LIMIT }
    ensures end { (steps : ℕ) → stop < from + steps → result ≡ sizes_end steps bins.now from stop }
    ensures within { result ≤ stop }
{
    let mut at = from;
    while at < stop {
        let size = size_at(bins, at);
        if !is_size(size, at, stop) {
            return at;
        }
        at += size as usize;
    }
    at
}

/// The place of the first bad size, in bins whose headers are good; `None` where none is bad.
pub fn bad_size(bins: &[u8]) -> Option<u32>
    requires pages { length bins.now % 4096 ≡ 0 }
    requires small { length bins.now ≤ BINS_LIMIT }
    requires headers { is_some (bins_of bins.now) ≡ true }
    ensures { (places : List BinPlace) → bins_of bins.now ≡ Some places → result ≡ bad_cell bins.now places }
{
    let mut at = 0;
    while at < bins.len() {
        let stop = at + word_at(bins, at + 8) as usize;
        let end = end_of_sizes(bins, at + 32, stop);
        if end < stop {
            return Some(end as u32);
        }
        at = stop;
    }
    None
}
