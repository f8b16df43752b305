//! Side tables, with a number for each eight bytes of the bins or for each size.
ghost use Rattle.std.specs.Prelude.{◌≡◌, ℕ, ◌+◌, ◌-◌, ◌/◌, ◌≤◌, ◌<◌, max, length, get_or, OnErr, OnOk, IsOk};
ghost use Rattle.reg_heap.specs.declared.limits.TheConstants.{NONE};
ghost use Rattle.reg_arena.specs.Internal.SizeTables.{marked, ended, tagged, untagged};

use reg_bins::PageTables;
use reg_heap::limits::NONE;
use std::alloc::AllocError;

// Sets the number at a cell's first eight bytes, if there is a cell.
pub fn mark(table: &mut PageTables, cell: u32, value: u32)
    requires { (cell ≡ NONE → ⊥) → cell / 8 < length table.old.items }
    ensures table { table.new.items ≡ marked cell value table.old.items }
    ensures long { length table.new.items ≡ length table.old.items }
{
    if cell != NONE {
        table.set(cell as usize / 8, value);
    }
}

// Sets the number at a cell's last eight bytes, where those are not its first.
pub fn mark_last(table: &mut PageTables, cell: u32, size: u32, value: u32)
    requires { 8 < size → (cell + size - 8) / 8 < length table.old.items }
    ensures table { table.new.items ≡ ended cell size value table.old.items }
    ensures long { length table.new.items ≡ length table.old.items }
{
    if size > 8 {
        table.set((cell as usize + size as usize - 8) / 8, value);
    }
}

// A link with its lowest bit set. Offsets are multiples of 8, and `NONE` is odd.
pub fn with_tag(link: u32) -> u32
    ensures { result ≡ tagged link }
{
    if link == NONE {
        return NONE;
    }
    link + 1
}

// The link of a number with that bit.
pub fn without_tag(mark: u32) -> u32
    ensures { result ≡ untagged mark }
{
    if mark == NONE {
        return NONE;
    }
    mark - mark % 2
}

// Lengthens a table to at least so many numbers, the new ones all the same. Where memory is refused, it is as before.
pub fn lengthen(table: &mut Vec<u32>, long: usize, number: u32) -> Result<(), AllocError>
    requires { long ≤ 33554432 }
    ensures same { (place : ℕ) → get_or table.new.items place number ≡ get_or table.old.items place number }
    ensures longer { length table.old.items ≤ length table.new.items }
    ensures most { length table.new.items ≤ max (length table.old.items) long }
    ensures ok { OnOk result (long ≤ length table.new.items) }
    ensures succeeds { long ≤ length table.old.items → IsOk result }
    ensures err { OnErr result (table.new.items ≡ table.old.items) }
{
    if long <= table.len() {
        return Ok(());
    }
    table.resize(long, number)
}

// Lengthens a bitmap to at least so many words, the new ones all 0. Where memory is refused, it is as before.
pub fn lengthen_words(table: &mut Vec<u64>, long: usize) -> Result<(), AllocError>
    requires { long ≤ 33554432 }
    ensures same { (place : ℕ) → get_or table.new.items place 0 ≡ get_or table.old.items place 0 }
    ensures longer { length table.old.items ≤ length table.new.items }
    ensures most { length table.new.items ≤ max (length table.old.items) long }
    ensures ok { OnOk result (long ≤ length table.new.items) }
    ensures succeeds { long ≤ length table.old.items → IsOk result }
    ensures err { OnErr result (table.new.items ≡ table.old.items) }
{
    if long <= table.len() {
        return Ok(());
    }
    table.resize(long, 0)
}
