//! Bins that are taken as they stand.
ghost use Rattle.std.specs.Prelude.{◌≡◌, ◌≤◌, ℕ, List, [], length};
ghost use Rattle.reg_heap.specs.declared.limits.TheConstants.{BINS_LIMIT};
ghost use Rattle.reg_arena.specs.Cells.{Bin, cells_in};
ghost use Rattle.reg_arena.specs.Internal.TakenBins.{AreTaken, IsTaking, Takes};

use crate::bin::HEADER_SIZE;
use crate::free_lists::FreeLists;
use crate::words::field_size;
use reg_bins::BinRow;

// Puts the free cells of a bin, which are those from `from` to `stop`, into the lists.
fn list_free(bins: &mut BinRow, lists: &mut FreeLists, from: usize, stop: usize)
    requires taking { IsTaking bins.old.items from stop lists.old }
    requires small { length bins.old.items ≤ BINS_LIMIT }
    ensures takes { Takes bins.old.items lists.old bins.new.items lists.new from stop }
    ensures long { length bins.new.items ≡ length bins.old.items }
    ensures parts { bins.new.parts ≡ bins.old.parts }
{
    let mut at = from;
    while at < stop {
        let field = bins.word_at(at);
        if field < 0x8000_0000 {
            lists.insert(bins, at as u32, field);
        }
        at += field_size(field) as usize;
    }
}

// Puts the free cells of all bins into the lists, which have none.
pub fn list_all_free(bins: &mut BinRow, lists: &mut FreeLists)
    requires taken { (layout : List Bin) × AreTaken bins.old.items bins.old.items layout [] (cells_in layout) lists.old }
    requires small { length bins.old.items ≤ BINS_LIMIT }
    ensures taken { (layout : List Bin) → AreTaken bins.old.items bins.old.items layout [] (cells_in layout) lists.old →
        AreTaken bins.old.items bins.new.items layout (cells_in layout) [] lists.new }
    ensures parts { bins.new.parts ≡ bins.old.parts }
{
    let mut at = 0;
    while at < bins.len() {
        let size = bins.word_at(at + 8) as usize;
        list_free(bins, lists, at + HEADER_SIZE as usize, at + size);
        at += size;
    }
}
