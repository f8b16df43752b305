//! Laws of the cells of some bytes. Each function is one law: it does nothing, and its contract says what holds of the
//! definitions in `specs/`.
//!
//! Suhanov, Windows registry file format specification, sections "Hive bin" and "Cell".
ghost use Rattle.std.specs.Prelude.{◌≡◌, ◌+◌, ◌-◌, ◌%◌, ◌<◌, ◌≤◌, ℕ, List, ◌∷◌, ◌++◌, length, take, drop, All, Contains, sum_by, Some, None, true, false};
ghost use Rattle.reg_arena.specs.Cells.{Bin, AreBins, IsInBin, cells_in, cells_of, cell_at};
ghost use Rattle.reg_arena.specs.declared.Cell.{Cell};

/// A bin's header of 32 bytes and its cells are the whole bin.
pub fn bin_is_its_header_and_cells()
    ensures { (bytes : List ℕ) → (layout : List Bin) → AreBins bytes 0 layout →
        All (λ (bin : Bin). 32 + sum_by (λ (cell : Cell). cell.size) bin.cells ≡ bin.size) layout }
{}

/// All bins together are all bytes.
pub fn bins_are_all_bytes()
    ensures { (bytes : List ℕ) → (layout : List Bin) → AreBins bytes 0 layout → sum_by (λ (bin : Bin). bin.size) layout ≡ length bytes }
{}

/// A page of 4096 bytes, counted from the first bin, is in one bin, and so is each piece of it.
pub fn page_is_in_one_bin()
    ensures { (bytes : List ℕ) → (layout : List Bin) → AreBins bytes 0 layout → (page at len : ℕ) → page % 4096 ≡ 0 → page < length bytes →
        page ≤ at → at + len ≤ page + 4096 → IsInBin bytes at len }
{}

/// The cells of bytes that are bins of cells are these cells.
pub fn bins_have_their_cells()
    ensures { (bytes : List ℕ) → (layout : List Bin) → AreBins bytes 0 layout → cells_of bytes ≡ Some (cells_in layout) }
{}

/// Bytes that have cells are bins of these cells.
pub fn cells_stand_in_bins()
    ensures { (bytes : List ℕ) → (cells : List Cell) → cells_of bytes ≡ Some cells → (layout : List Bin) × AreBins bytes 0 layout × (cells ≡ cells_in layout) }
{}

/// No cell begins before an earlier one ends.
pub fn cells_are_apart()
    ensures { (bytes : List ℕ) → (front middle rest : List Cell) → (first second : Cell) →
        cells_of bytes ≡ Some (front ++ first ∷ (middle ++ second ∷ rest)) → first.offset + first.size ≤ second.offset }
{}

/// A free cell has no content.
pub fn free_cell_has_no_content()
    ensures { (bytes : List ℕ) → (cells : List Cell) → (cell : Cell) → cells_of bytes ≡ Some cells → Contains cells cell →
        cell.allocated ≡ false → cell_at bytes cell.offset ≡ None }
{}

/// An allocated cell's content is the bytes behind its size field.
pub fn allocated_cell_has_its_content()
    ensures { (bytes : List ℕ) → (cells : List Cell) → (cell : Cell) → cells_of bytes ≡ Some cells → Contains cells cell →
        cell.allocated ≡ true → cell_at bytes cell.offset ≡ Some (take (cell.size - 4) (drop (cell.offset + 4) bytes)) }
{}

/// Where there is a content, an allocated cell stands there, four bytes larger than its content.
pub fn content_is_an_allocated_cells()
    ensures { (bytes : List ℕ) → (cells : List Cell) → (offset : ℕ) → (content : List ℕ) → cells_of bytes ≡ Some cells →
        cell_at bytes offset ≡ Some content → (cell : Cell) × Contains cells cell × (cell.offset ≡ offset)
        × (cell.allocated ≡ true) × (length content + 4 ≡ cell.size) }
{}

/// Bytes that have a content have cells.
pub fn content_needs_cells()
    ensures { (bytes : List ℕ) → (offset : ℕ) → (content : List ℕ) → cell_at bytes offset ≡ Some content → (cells : List Cell) × (cells_of bytes ≡ Some cells) }
{}
