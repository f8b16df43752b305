//! Data above 16,344 bytes: a big data record, a list of segments, and the segments.
//!
//! Suhanov, Windows registry file format specification, section "Big data".

ghost use Rattle.std.specs.Prelude.{◌≡◌, ◌+◌, ◌-◌, ◌*◌, ◌≤◌, ℕ, List, [], length, min, IfOk, OnOk};
ghost use Rattle.reg_heap.specs.Kinds.Kind.{Segment};
ghost use Rattle.reg_arena.specs.Cells.{cell_at};
ghost use Rattle.reg_records.specs.OffsetRows.{offsets_at};
ghost use Rattle.reg_records.specs.BigData.{named, segment_size, segments_for as segments_for_of, segments};
ghost use Rattle.reg_tree_image.specs.LoadingWalk.{bytes_from as bytes_step, pieces_from as pieces_step, big_from as big_step};
ghost use Rattle.reg_tree_image.specs.Internal.CellStates.{unnamed};
ghost use Rattle.reg_tree_image.specs.Internal.ReaderOutcomes.{Follows};
ghost use Rattle.reg_tree_image.specs.Internal.SegmentSteps.{appended};

use crate::LoadFault;
use crate::cells::{bytes_from, cell};
use crate::rows::row_from;
use crate::table::CellTable;
use reg_records::{SEGMENT_SIZE, offset_at, read_db};
use std::alloc::Global;

/// How many segments data of a size has.
#[tactic(auto, unfolding(reg_records::specs::BigData::segment_size))]
fn segments_for(size: u32) -> u32
    ensures { result ≡ segments_for_of size }
{
    ((size as usize + (SEGMENT_SIZE - 1)) / SEGMENT_SIZE) as u32
}

/// How many bytes the next segment has, of so many that are left.
#[tactic(auto, unfolding(reg_records::specs::BigData::segment_size))]
fn segment_length(left: usize) -> usize
    ensures { result ≡ min segment_size left }
{
    SEGMENT_SIZE.min(left)
}

/// How many bytes are left behind the next segment.
#[tactic(auto, unfolding(reg_records::specs::BigData::segment_size))]
fn left_behind(left: usize) -> usize
    ensures { result ≡ left - segment_size }
{
    left.saturating_sub(SEGMENT_SIZE)
}

/// Names the segment at an offset, and appends its bytes: all that are left, and at most as many as a segment holds.
fn append_segment(
    bins: &[u8],
    table: &mut CellTable,
    offset: u32,
    left: usize,
    bytes: &mut Vec<u8>,
) -> Result<(), LoadFault>
    ensures follows { (path : List ℕ) →
        Follows (cell_at bins.now) path (λ _. bytes.new.items)
        (appended bytes.old.items (bytes_step (cell_at bins.now) path (named Segment (min segment_size left) offset)))
        table.old.states.items table.new.states.items result }
    ensures sized { OnOk result (length bytes.new.items ≡ length bytes.old.items + min segment_size left) }
    ensures no_more { unnamed table.new.states.items ≤ unnamed table.old.states.items }
{
    let piece = bytes_from(bins, table, offset, segment_length(left))?;
    if bytes.extend_from_slice(piece).is_err() {
        return Err(LoadFault::Memory);
    }
    Ok(())
}

/// Names the segments of data of a size at the first offsets of a row, in order, and copies their bytes one behind the other.
fn pieces_from(
    alloc: Global,
    bins: &[u8],
    table: &mut CellTable,
    row: &[u8],
    count: u32,
    size: u32,
) -> Result<Vec<u8>, LoadFault>
    requires { 4 * count ≤ length row.now }
    ensures follows { (path : List ℕ) →
        Follows (cell_at bins.now) path (λ bytes. bytes.items)
        (pieces_step (cell_at bins.now) path [] (segments size (offsets_at count 0 row.now)))
        table.old.states.items table.new.states.items result }
    ensures short { IfOk result (λ bytes. length bytes.items ≤ size) }
    ensures no_more { unnamed table.new.states.items ≤ unnamed table.old.states.items }
{
    let Ok(mut bytes) = Vec::with_capacity(alloc, size as usize) else {
        return Err(LoadFault::Memory);
    };
    let mut left = size as usize;
    for index in 0..count {
        append_segment(bins, table, offset_at(row, index), left, &mut bytes)?;
        left = left_behind(left);
    }
    Ok(bytes)
}

/// Names a big data record, as many offsets of its list as data of a size has segments, and these segments, and copies their bytes.
pub fn big_from(
    alloc: Global,
    bins: &[u8],
    table: &mut CellTable,
    size: u32,
    offset: u32,
) -> Result<Vec<u8>, LoadFault>
    ensures follows { (path : List ℕ) →
        Follows (cell_at bins.now) path (λ bytes. bytes.items) (big_step (cell_at bins.now) path size offset)
        table.old.states.items table.new.states.items result }
    ensures short { IfOk result (λ bytes. length bytes.items ≤ size) }
    ensures no_more { unnamed table.new.states.items ≤ unnamed table.old.states.items }
{
    let content = cell(bins, table, offset, false)?;
    let Ok(big) = read_db(content) else {
        return Err(LoadFault::Record);
    };
    let count = segments_for(size);
    if u32::from(big.count) < count {
        return Err(LoadFault::Record);
    }
    let row = row_from(bins, table, big.list, count)?;
    pieces_from(alloc, bins, table, row, count, size)
}
