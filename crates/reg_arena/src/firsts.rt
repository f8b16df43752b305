//! The first free cell of each size below 16,384.
ghost use Rattle.std.specs.Prelude.{◌≡◌, ◌+◌, ◌/◌, ◌<◌, ◌≤◌, length, get_or};
ghost use Rattle.reg_heap.specs.declared.limits.TheConstants.{NONE};
ghost use Rattle.reg_arena.specs.Internal.SizeTables.{AreBits, first_put, first_taken, size_or_none};

use crate::bitmap::{clear_bit, set_bit};
use reg_bins::BinRow;
use reg_heap::limits::NONE;

/// From this size on, free cells stand in the last list, in any order.
pub const LARGE: u32 = 16_384;

// The first cell of a size, or `NONE`.
pub fn first_of(firsts: &Vec<u32>, size: u32) -> u32
    requires { 2048 ≤ length firsts.now.items }
    ensures low { size < LARGE → result ≡ get_or firsts.now.items (size / 8) NONE }
    ensures high { LARGE ≤ size → result ≡ NONE }
{
    if size >= LARGE {
        return NONE;
    }
    firsts[size as usize / 8]
}

// A cell of a size came, behind the first of that size if there is one.
pub fn note_put(firsts: &mut Vec<u32>, words: &mut Vec<u64>, previous: u32, cell: u32, size: u32)
    requires firsts { 2048 ≤ length firsts.old.items }
    requires words { 32 ≤ length words.old.items }
    requires some { cell ≡ NONE → ⊥ }
    requires bits { AreBits words.old.items firsts.old.items }
    ensures firsts { firsts.new.items ≡ first_put previous cell size firsts.old.items }
    ensures bits { AreBits words.new.items firsts.new.items }
    ensures long { length words.new.items ≡ length words.old.items }
    ensures firsts_long { length firsts.new.items ≡ length firsts.old.items }
{
    if size < LARGE && previous == NONE {
        firsts[size as usize / 8] = cell;
        set_bit(words, size as usize / 8);
    }
}

// The size of a free cell, or 0 where there is none.
fn size_of_next(bins: &BinRow, cell: u32) -> u32
    requires { (cell ≡ NONE → ⊥) → cell + 4 ≤ length bins.now.items }
    ensures { result ≡ size_or_none bins.now.items cell }
{
    if cell == NONE {
        return 0;
    }
    bins.word_at(cell as usize)
}

// A cell of a size, which stood before `next`, goes.
pub fn note_taken(
    bins: &BinRow,
    firsts: &mut Vec<u32>,
    words: &mut Vec<u64>,
    cell: u32,
    size: u32,
    next: u32,
)
    requires firsts { 2048 ≤ length firsts.old.items }
    requires words { 32 ≤ length words.old.items }
    requires next { (next ≡ NONE → ⊥) → next + 4 ≤ length bins.now.items }
    requires some { 0 < size }
    requires cell { cell ≡ NONE → ⊥ }
    requires bits { AreBits words.old.items firsts.old.items }
    ensures firsts { firsts.new.items ≡ first_taken cell size next (size_or_none bins.now.items next) firsts.old.items }
    ensures bits { AreBits words.new.items firsts.new.items }
    ensures long { length words.new.items ≡ length words.old.items }
    ensures firsts_long { length firsts.new.items ≡ length firsts.old.items }
{
    if size >= LARGE {
        return;
    }
    let place = size as usize / 8;
    if firsts[place] != cell {
        return;
    }
    if size_of_next(bins, next) == size {
        firsts[place] = next;
        return;
    }
    firsts[place] = NONE;
    clear_bit(words, place);
}
