//! Sizes in the bins.
ghost use Rattle.std.specs.Prelude.{◌≡◌, ◌+◌, ◌≤◌, length};
ghost use Rattle.reg_heap.specs.ByteWords.{word};
ghost use Rattle.reg_arena.specs.Cells.{size_in};

use reg_bins::BinRow;

// The size that the size field at a place gives: an allocated cell's is negative.
pub fn size_at(bins: &BinRow, at: usize) -> u32
    requires { at + 4 ≤ length bins.now.items }
    ensures { result ≡ size_in (word bins.now.items at) }
{
    field_size(bins.word_at(at))
}

// The size that a size field gives.
pub fn field_size(field: u32) -> u32
    ensures { result ≡ size_in field }
{
    if field < 0x8000_0000 {
        field
    } else {
        0xFFFF_FFFF - field + 1
    }
}
