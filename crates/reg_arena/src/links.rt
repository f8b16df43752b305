//! The links of the lists, and back: the four bytes behind a free cell's size field are the offset of the next one.
ghost use Rattle.std.specs.Prelude.{◌≡◌, ◌+◌, ◌/◌, ◌≤◌, ◌<◌, length, set, get_or, vec_capacity};
ghost use Rattle.byteorder.specs.Endian.{little_bytes};
ghost use Rattle.reg_heap.specs.declared.limits.TheConstants.{NONE};
ghost use Rattle.reg_heap.specs.ByteWords.{splice, word};
ghost use Rattle.reg_arena.specs.Internal.SizeTables.{marked, head_linked, following, linked, freed, tagged, untagged};

use crate::tables::{mark, with_tag, without_tag};
use reg_bins::{BinRow, PageTables};
use reg_heap::limits::NONE;

// The cell behind one, or where there is none the list's first.
fn next_of(bins: &BinRow, heads: &[u32], class: usize, cell: u32) -> u32
    requires class { class < length heads.now }
    requires cell { (cell ≡ NONE → ⊥) → cell + 8 ≤ length bins.now.items }
    ensures { result ≡ following bins.now.items heads.now class cell }
{
    if cell == NONE {
        return heads[class];
    }
    bins.word_at(cell as usize + 4)
}

// Sets the link behind a cell, or where there is none the head.
fn set_link(bins: &mut BinRow, heads: &mut [u32], class: usize, cell: u32, value: u32)
    requires class { class < length heads.old }
    requires cell { (cell ≡ NONE → ⊥) → cell + 8 ≤ length bins.old.items }
    ensures bytes { bins.new.items ≡ linked cell value bins.old.items }
    ensures heads { heads.new ≡ head_linked class cell value heads.old }
    ensures room { bins.new.room ≡ bins.old.room }
    ensures parts { bins.new.parts ≡ bins.old.parts }
{
    if cell == NONE {
        heads[class] = value;
    } else {
        bins.put_word(cell as usize + 4, value);
    }
}

// The two words of a free cell.
pub fn put_free(bins: &mut BinRow, at: u32, size: u32, next: u32)
    requires { at + 8 ≤ length bins.old.items }
    ensures bytes { bins.new.items ≡ freed at size next bins.old.items }
    ensures room { bins.new.room ≡ bins.old.room }
    ensures parts { bins.new.parts ≡ bins.old.parts }
{
    bins.put_word(at as usize, size);
    bins.put_word(at as usize + 4, next);
}

// Makes bytes a free cell, and puts it behind another of its list, or to the front. Its mark is the link back to that one.
pub fn link_in(
    bins: &mut BinRow,
    heads: &mut [u32],
    marks: &mut PageTables,
    class: usize,
    previous: u32,
    cell: u32,
    size: u32,
)
    requires class { class < length heads.old }
    requires previous { (previous ≡ NONE → ⊥) → previous + 8 ≤ length bins.old.items }
    requires next { (following bins.old.items heads.old class previous ≡ NONE → ⊥) →
        following bins.old.items heads.old class previous / 8 < length marks.old.items }
    requires cell { cell + 8 ≤ length bins.old.items }
    requires cell_mark { cell / 8 < length marks.old.items }
    ensures bytes { bins.new.items ≡ freed cell size (following bins.old.items heads.old class previous) (linked previous cell bins.old.items) }
    ensures marks { marks.new.items ≡
        set (marked (following bins.old.items heads.old class previous) (tagged cell) marks.old.items) (cell / 8) (tagged previous) }
    ensures heads { heads.new ≡ head_linked class previous cell heads.old }
    ensures short { following bins.old.items heads.old class previous < 4294967296 }
    ensures room { bins.new.room ≡ bins.old.room }
    ensures parts { bins.new.parts ≡ bins.old.parts }
    ensures long { length marks.new.items ≡ length marks.old.items }
{
    let next = next_of(bins, heads, class, previous);
    set_link(bins, heads, class, previous, cell);
    put_free(bins, cell, size, next);
    mark(marks, next, with_tag(cell));
    marks.set(cell as usize / 8, with_tag(previous));
}

// Takes a cell out of its list, with its mark, and answers the cell behind it.
pub fn unlink(
    bins: &mut BinRow,
    heads: &mut [u32],
    marks: &mut PageTables,
    class: usize,
    cell: u32,
) -> u32
    requires class { class < length heads.old }
    requires cell { cell + 8 ≤ length bins.old.items }
    requires cell_mark { cell / 8 < length marks.old.items }
    requires previous { (untagged (get_or marks.old.items (cell / 8) 0) ≡ NONE → ⊥) →
        untagged (get_or marks.old.items (cell / 8) 0) + 8 ≤ length bins.old.items }
    requires next { (word bins.old.items (cell + 4) ≡ NONE → ⊥) → word bins.old.items (cell + 4) / 8 < length marks.old.items }
    ensures bytes { bins.new.items ≡ linked (untagged (get_or marks.old.items (cell / 8) 0)) (word bins.old.items (cell + 4)) bins.old.items }
    ensures marks { marks.new.items ≡
        set (marked (word bins.old.items (cell + 4)) (tagged (untagged (get_or marks.old.items (cell / 8) 0))) marks.old.items) (cell / 8) 0 }
    ensures heads { heads.new ≡ head_linked class (untagged (get_or marks.old.items (cell / 8) 0)) (word bins.old.items (cell + 4)) heads.old }
    ensures next { result ≡ word bins.old.items (cell + 4) }
    ensures room { bins.new.room ≡ bins.old.room }
    ensures parts { bins.new.parts ≡ bins.old.parts }
    ensures long { length marks.new.items ≡ length marks.old.items }
{
    let previous = without_tag(marks.get(cell as usize / 8));
    let next = bins.word_at(cell as usize + 4);
    set_link(bins, heads, class, previous, next);
    mark(marks, next, with_tag(previous));
    marks.set(cell as usize / 8, 0);
    next
}
