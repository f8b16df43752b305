//! Where the fault of an image is met: the offset of a bin or a cell, and the path of a key.
//!
//! Suhanov, Windows registry file format specification, sections "Hive bin", "Cell" and "Key node".

ghost use Rattle.std.specs.Prelude.{◌≡◌, ◌%◌, ◌≤◌, ◌++◌, ℕ, [], length, map, reverse, OnOk, IfOk, IfErr, MatchResult, option_map};
ghost use Rattle.reg_names.specs.Names.{text_of};
ghost use Rattle.reg_heap.specs.declared.limits.TheConstants.{BINS_LIMIT};
ghost use Rattle.reg_arena.specs.Cells.{cell_at};
ghost use Rattle.reg_text.specs.Failures.{Stays};
ghost use Rattle.reg_tree_image.specs.declared.LoadFault.{LoadFault};
ghost use Rattle.reg_tree_image.specs.Loads.{IsBlamed};
ghost use Rattle.reg_tree_image.specs.Images.{nothing};
ghost use Rattle.reg_tree_image.specs.FaultPlaces.{Locates, NotLocated, name_there, key_text, place_at, keyless, place_in, hive_place};
ghost use Rattle.reg_tree_image.specs.Internal.CellScans.{IsNoScan};
ghost use Rattle.reg_tree_image.specs.Internal.CellStates.{IsTable};
ghost use Rattle.reg_tree_image.specs.Internal.FaultSpots.{EndsAs, is_lack, parted, spot_in, walked_place};

use crate::LoadFault;
use crate::bad_bins::{bad_header, bad_size};
use crate::block::{BaseBlock, read_block};
use crate::cells::content;
use crate::checking::walk_keys;
use crate::input::{fill, read_bytes};
use crate::keys::read_key;
use crate::scan::scan;
use crate::spots::{WalkSpot, first_spot};
use crate::table::{CellState, CellTable};
use reg_text::Source;
use std::alloc::Global;

/// Where a fault is met.
#[derive(Drop)]
pub struct FaultPlace {
    /// The offset of the bin or the cell, from the start of the bins.
    pub offset: u32,
    /// The path of the key at whose reading it is met: its names as they are spelt, with one backslash between each two, and none for the
    /// root. `None` for a bin, for the size of a cell, and for the root's own node. A key's node is met at the reading of the key above it.
    pub key: Option<Vec<u8>>,
}

/// Whether a fault is want of memory, which is no fault of the image.
fn is_want(fault: LoadFault) -> bool
    ensures { result ≡ is_lack fault }
{
    match fault {
        LoadFault::Memory => true,
        LoadFault::Read
        | LoadFault::Short
        | LoadFault::Signature
        | LoadFault::Version
        | LoadFault::Checksum
        | LoadFault::Dirty
        | LoadFault::Bins
        | LoadFault::Cells
        | LoadFault::Record
        | LoadFault::Loop
        | LoadFault::Twice
        | LoadFault::NotInProfile
        | LoadFault::Limit => false,
    }
}

/// Appends bytes to a text.
fn append(text: &mut Vec<u8>, bytes: &[u8]) -> Result<(), LoadFault>
    ensures ok { OnOk result (text.new.items ≡ text.old.items ++ bytes.now) }
    ensures err { IfErr result (λ fault. fault ≡ LoadFault.Memory) }
{
    if text.extend_from_slice(bytes).is_err() {
        return Err(LoadFault::Memory);
    }
    Ok(())
}

/// Appends the name of the key whose node stands at an offset; none where no node can be read there.
fn append_name(
    alloc: Global,
    bins: &[u8],
    table: &CellTable,
    text: &mut Vec<u8>,
    offset: u32,
) -> Result<(), LoadFault>
    requires { IsTable (cell_at bins.now) [] [] table.now.states.items }
    ensures ok { OnOk result (text.new.items ≡ text.old.items ++ name_there (cell_at bins.now) offset) }
    ensures err { IfErr result (λ fault. fault ≡ LoadFault.Memory) }
{
    if table.state(offset) == CellState::Unallocated {
        return Ok(());
    }
    match read_key(alloc, content(bins, offset)) {
        Ok(named) => append(text, named.name.as_slice()),
        Err(fault) => {
            if is_want(fault) {
                return Err(LoadFault::Memory);
            }
            Ok(())
        }
    }
}

/// Parts a name from the one before it, if there is one.
fn append_part(text: &mut Vec<u8>, index: usize) -> Result<(), LoadFault>
    ensures ok { OnOk result (text.new.items ≡ parted index text.old.items) }
    ensures err { IfErr result (λ fault. fault ≡ LoadFault.Memory) }
{
    if index == 0 {
        return Ok(());
    }
    append(text, b"\\")
}

/// The names of keys whose nodes stand at these offsets, with one backslash between each two.
fn names_text(
    alloc: Global,
    bins: &[u8],
    table: &CellTable,
    offsets: &[u32],
) -> Result<Vec<u8>, LoadFault>
    requires { IsTable (cell_at bins.now) [] [] table.now.states.items }
    ensures ok { IfOk result (λ text. text.items ≡ text_of (map (name_there (cell_at bins.now)) offsets.now)) }
    ensures err { IfErr result (λ fault. fault ≡ LoadFault.Memory) }
{
    let mut text = Vec::new(alloc);
    for (index, offset) in offsets.iter().enumerate() {
        append_part(&mut text, index)?;
        append_name(alloc, bins, table, &mut text, *offset)?;
    }
    Ok(text)
}

/// The path of the lowest of some keys, from the root on; `None` of none.
fn key_path(
    alloc: Global,
    bins: &[u8],
    table: &CellTable,
    path: &[u32],
) -> Result<Option<Vec<u8>>, LoadFault>
    requires { IsTable (cell_at bins.now) [] [] table.now.states.items }
    ensures ok { IfOk result (λ key. option_map (λ text. text.items) key ≡ key_text (cell_at bins.now) (reverse path.now)) }
    ensures err { IfErr result (λ fault. fault ≡ LoadFault.Memory) }
{
    if path.len() == 0 {
        return Ok(None);
    }
    let text = names_text(alloc, bins, table, &path[1..])?;
    Ok(Some(text))
}

/// The place of a fault that was met where a walk was.
fn place_told(alloc: Global, bins: &[u8], spot: &WalkSpot) -> Result<FaultPlace, LoadFault>
    requires pages { length bins.now % 4096 ≡ 0 }
    requires small { length bins.now ≤ BINS_LIMIT }
    ensures ok { IfOk result (λ place. place_in place ≡ place_at (cell_at bins.now) (spot_in spot.now)) }
    ensures err { IfErr result (λ fault. fault ≡ LoadFault.Memory) }
{
    // The cells once more: the walk's own table says what it named.
    let Ok(table) = scan(alloc, bins) else {
        return Err(LoadFault::Memory);
    };
    let key = key_path(alloc, bins, &table, spot.path.as_slice())?;
    Ok(FaultPlace {
        offset: spot.offset,
        key,
    })
}

/// Where the walk of the keys of foreign bins fails; `None` where it doesn't. Of the cells none was named yet.
fn place_in_keys(
    alloc: Global,
    bins: &[u8],
    block: BaseBlock,
    table: &mut CellTable,
) -> Result<Option<FaultPlace>, LoadFault>
    requires pages { length bins.now % 4096 ≡ 0 }
    requires small { length bins.now ≤ BINS_LIMIT }
    requires table { IsTable (cell_at bins.now) [] [] table.old.states.items }
    ensures ok { IfOk result (λ place. option_map place_in place ≡ walked_place (cell_at bins.now) block.minor block.root) }
    ensures err { IfErr result (λ fault. fault ≡ LoadFault.Memory) }
{
    let mut noted = Vec::new(alloc);
    let mut spot = first_spot(alloc);
    match walk_keys(
        alloc,
        bins,
        block.minor,
        table,
        &mut noted,
        &mut spot,
        block.root,
    ) {
        Ok(()) => Ok(None),
        Err(fault) => {
            if is_want(fault) {
                return Err(LoadFault::Memory);
            }
            let place = place_told(alloc, bins, &spot)?;
            Ok(Some(place))
        }
    }
}

/// A place in no key.
fn keyless_place(offset: u32) -> FaultPlace
    ensures { place_in result ≡ keyless offset }
{
    FaultPlace { offset, key: None }
}

/// The place of a bad header or a bad size, for which foreign bins couldn't be scanned.
fn place_unscanned(bins: &[u8], fault: LoadFault) -> Result<Option<FaultPlace>, LoadFault>
    requires pages { length bins.now % 4096 ≡ 0 }
    requires small { length bins.now ≤ BINS_LIMIT }
    requires fault { IsNoScan bins.now fault }
    ensures ok { (minor : ℕ) → (root : ℕ) → IfOk result (λ place. option_map place_in place ≡ hive_place bins.now minor root nothing) }
    ensures err { IfErr result (λ fault. fault ≡ LoadFault.Memory) }
{
    match fault {
        LoadFault::Bins => Ok(Some(keyless_place(bad_header(bins)))),
        LoadFault::Cells => match bad_size(bins) {
            Some(offset) => Ok(Some(keyless_place(offset))),
            None => Ok(None),
        },
        LoadFault::Read
        | LoadFault::Short
        | LoadFault::Signature
        | LoadFault::Version
        | LoadFault::Checksum
        | LoadFault::Dirty
        | LoadFault::Record
        | LoadFault::Loop
        | LoadFault::Twice
        | LoadFault::NotInProfile
        | LoadFault::Limit
        | LoadFault::Memory => Err(LoadFault::Memory),
    }
}

/// Where the walk of a hive in foreign bins fails: a bin, a cell or a key; `None` where it doesn't.
pub fn place_in_bins(
    alloc: Global,
    bins: &[u8],
    block: BaseBlock,
) -> Result<Option<FaultPlace>, LoadFault>
    requires pages { length bins.now % 4096 ≡ 0 }
    requires small { length bins.now ≤ BINS_LIMIT }
    ensures ok { IfOk result (λ place. option_map place_in place ≡ hive_place bins.now block.minor block.root nothing) }
    ensures err { IfErr result (λ fault. fault ≡ LoadFault.Memory) }
{
    match scan(alloc, bins) {
        Ok(mut table) => place_in_keys(alloc, bins, block, &mut table),
        Err(fault) => place_unscanned(bins, fault),
    }
}

/// What comes of a reading that ended too early: `None` where the image did.
fn unread(fault: LoadFault) -> Result<Option<FaultPlace>, LoadFault>
    ensures { EndsAs fault result }
{
    match fault {
        LoadFault::Read => Err(LoadFault::Read),
        LoadFault::Memory => Err(LoadFault::Memory),
        LoadFault::Short
        | LoadFault::Signature
        | LoadFault::Version
        | LoadFault::Checksum
        | LoadFault::Dirty
        | LoadFault::Bins
        | LoadFault::Cells
        | LoadFault::Record
        | LoadFault::Loop
        | LoadFault::Twice
        | LoadFault::NotInProfile
        | LoadFault::Limit => Ok(None),
    }
}

/// The place in the bins of an image where the first test fails that [`crate::load_tree`] makes of it: reads the base block, then the
/// bins behind it and no byte more. `None` where the image ends too early, where a test of its base block fails, and where none fails: want
/// of room in new bins has no place.
///
/// A bad bin and a bad size of a cell are told by their offsets; a key by that of its node, also where its name comes twice or it is too
/// deep; a class, a security, a list of values or of subkeys by the offset that the key or the index root has for it; a value by that of
/// its record, and data that stands elsewhere by the offset that the record has for it, but for data that is too long; a key's 60,001st
/// subkey by that of its node. Takes memory as the walk of the keys does.
pub fn fault_place<R: Source>(alloc: Global, input: &mut R) -> Result<Option<FaultPlace>, LoadFault>
    ensures ok { IfOk result (λ place. Locates (R.remaining input.old) (R.remaining input.new) (option_map place_in place)) }
    ensures err { IfErr result (λ fault. NotLocated fault (R.remaining input.old) (R.remaining input.new)) }
    ensures failures { MatchResult result (λ _. Stays (R.failures input.old) (R.failures input.new))
        (λ fault. IsBlamed fault (R.failures input.old) (R.failures input.new)) }
{
    let mut head = [0u8; 4096];
    if let Err(fault) = fill(input, &mut head) {
        return unread(fault);
    }
    let Ok(block) = read_block(&head) else {
        return Ok(None);
    };
    match read_bytes(alloc, input, block.size as usize) {
        Ok(bins) => place_in_bins(alloc, bins.as_slice(), block),
        Err(fault) => unread(fault),
    }
}
