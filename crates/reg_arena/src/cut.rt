//! Allocated cells, side by side, cut from a piece of the bins.
ghost use Rattle.std.specs.Prelude.{◌≡◌, ◌+◌, ◌-◌, ◌≤◌, ◌<◌, ◌%◌, ℕ, List, [], ◌∷◌, ◌++◌, length, take, drop, replicate, vec_len, vec_capacity};
ghost use Rattle.reg_heap.specs.declared.limits.TheConstants.{BINS_LIMIT};
ghost use Rattle.reg_bins.specs.Rows.{IsInPart};
ghost use Rattle.reg_heap.specs.ByteWords.{SameOutside};
ghost use Rattle.reg_arena.specs.Cells.{IsCell, Tiles, content_in};
ghost use Rattle.reg_arena.specs.NewCells.{total_of, AreSizes, used, carved, offsets_of, zeroed};

use reg_bins::BinRow;

// An allocated cell of zeros. Its size field has the size, negated.
fn cut_one(bins: &mut BinRow, at: u32, size: u32)
    requires positive { 0 < size }
    requires eights { size % 8 ≡ 0 }
    requires fits { at + size ≤ length bins.old.items }
    requires part { IsInPart bins.old.parts at size }
    requires small { length bins.old.items ≤ BINS_LIMIT }
    ensures region { SameOutside at (at + size) bins.old.items bins.new.items }
    ensures cell { IsCell bins.new.items (at + size) (used at size) }
    ensures zero { take (size - 4) (drop (at + 4) bins.new.items) ≡ replicate (size - 4) 0 }
    ensures room { bins.new.room ≡ bins.old.room }
    ensures parts { bins.new.parts ≡ bins.old.parts }
{
    bins.put_word(at as usize, 0xFFFF_FFFF - size + 1);
    bins.zero(at as usize + 4, size as usize - 4);
}

// Allocated cells of these sizes from `cell` on. There is room for their offsets.
pub fn cut(bins: &mut BinRow, cell: u32, sizes: &[u32], out: &mut Vec<u32>)
    requires sizes { AreSizes sizes.now }
    requires fits { cell + total_of sizes.now ≤ length bins.old.items }
    requires part { IsInPart bins.old.parts cell (total_of sizes.now) }
    requires small { length bins.old.items ≤ BINS_LIMIT }
    requires room { vec_len out.old + length sizes.now ≤ vec_capacity out.old }
    ensures region { SameOutside cell (cell + total_of sizes.now) bins.old.items bins.new.items }
    ensures tiles { Tiles bins.new.items cell (cell + total_of sizes.now) (carved cell sizes.now) }
    ensures zero { (offset : ℕ) → content_in bins.new.items (carved cell sizes.now) offset ≡ zeroed cell sizes.now offset }
    ensures out { out.new.items ≡ out.old.items ++ offsets_of cell sizes.now }
    ensures room { bins.new.room ≡ bins.old.room }
    ensures parts { bins.new.parts ≡ bins.old.parts }
    ensures out_capacity { vec_capacity out.old ≤ vec_capacity out.new }
{
    let mut at = cell;
    for size in sizes {
        cut_one(bins, at, *size);
        let _ = out.push(at);
        at += *size;
    }
}
