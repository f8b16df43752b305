//! Bins that are a whole hive as they stand, as this project writes it, and are taken so.
//!
//! Suhanov, Windows registry file format specification, section "Format of primary files".

ghost use Rattle.std.specs.Prelude.{◌≡◌, ◌<◌, ◌≤◌, ◌%◌, ℕ, List, Ok, IfOk, IfErr, IfSome, MatchOption, length, map};
ghost use Rattle.reg_heap.specs.declared.limits.TheConstants.{BINS_LIMIT};
ghost use Rattle.reg_arena.specs.Arena.{IsArena};
ghost use Rattle.reg_arena.specs.Cells.{cell_at};
ghost use Rattle.reg_shape.specs.Whole.{Whole};
ghost use Rattle.reg_tree.specs.TreeKeys.{IsWholeWith, tree_in as tree_at};
ghost use Rattle.reg_written.specs.ReadKeys.{security_in};
ghost use Rattle.reg_written.specs.SecurityRings.{IsRingOf};
ghost use Rattle.reg_tree_image.specs.Images.{nothing, tree_in, bins_walk};
ghost use Rattle.reg_tree_image.specs.Loads.{StandAs};
ghost use Rattle.reg_tree_image.specs.Internal.CheckedStacks.{Meets};
ghost use Rattle.reg_tree_image.specs.Internal.WholeTests.{IsMet};

use crate::LoadFault;
use crate::checking::check_keys;
use crate::scan::scan;
use reg_arena::Arena;
use reg_tree::Tree;
use reg_written::{are_written, is_arena, ring_of, securities_of};
use std::alloc::Global;

/// The minor version of the images that this project writes.
pub const WRITTEN_MINOR: u32 = 5;

/// The offsets of the keys of bins that are an arena's, where the walk from the root on meets each allocated cell; `None` of others. The
/// first test of the walk that fails is the fault; `Memory` at any place.
fn met_keys(alloc: Global, bins: &[u8], root: u32) -> Result<Option<Vec<u32>>, LoadFault>
    requires pages { length bins.now % 4096 ≡ 0 }
    requires small { length bins.now ≤ BINS_LIMIT }
    ensures ok { IfOk result (λ found. MatchOption found (IsArena bins.now → Whole bins.now root → ⊥)
        (λ keys. IsArena bins.now × IsMet bins.now root keys.items)) }
    ensures err { IfErr result (λ fault. Meets fault (bins_walk bins.now 5 root nothing)) }
{
    let mut table = scan(alloc, bins)?;
    if !is_arena(bins) {
        return Ok(None);
    }
    let mut keys = Vec::new(alloc);
    check_keys(alloc, bins, WRITTEN_MINOR, &mut table, &mut keys, root)?;
    if !table.is_named() {
        return Ok(None);
    }
    Ok(Some(keys))
}

/// The ring that the securities of keys form, of which all were met, if they form one.
fn ring_of_keys(
    alloc: Global,
    bins: &[u8],
    root: u32,
    keys: &[u32],
) -> Result<Option<Vec<u32>>, LoadFault>
    requires { IsMet bins.now root keys.now }
    ensures ok { IfOk result (λ found. MatchOption found
        ((ring : List ℕ) → IsRingOf (cell_at bins.now) (map (security_in (cell_at bins.now)) keys.now) ring → ⊥)
        (λ ring. IsRingOf (cell_at bins.now) (map (security_in (cell_at bins.now)) keys.now) ring.items)) }
    ensures err { IfErr result (λ fault. fault ≡ LoadFault.Memory) }
{
    let Ok(used) = securities_of(alloc, bins, keys) else {
        return Err(LoadFault::Memory);
    };
    match ring_of(alloc, bins, used.as_slice()) {
        Ok(ring) => Ok(ring),
        Err(_) => Err(LoadFault::Memory),
    }
}

/// The ring of the securities of keys, of which all were met, where each key is as this project writes it and the securities are: the
/// hive is whole then. `None` of others.
fn ring_if_whole(
    alloc: Global,
    bins: &[u8],
    root: u32,
    keys: &[u32],
) -> Result<Option<Vec<u32>>, LoadFault>
    requires { IsMet bins.now root keys.now }
    ensures ok { IfOk result (λ found. MatchOption found (Whole bins.now root → ⊥) (λ ring. IsWholeWith bins.now root ring.items)) }
    ensures tree { IfOk result (λ found. IfSome found (λ ring. tree_in (bins_walk bins.now 5 root nothing) ≡ Ok (tree_at bins.now root))) }
    ensures err { IfErr result (λ fault. fault ≡ LoadFault.Memory) }
{
    if !are_written(bins, root, keys) {
        return Ok(None);
    }
    ring_of_keys(alloc, bins, root, keys)
}

/// The ring of securities of bins that are a whole hive as this project writes it: an arena's, of which each allocated cell is met, and
/// each key is as it is written. `None` of others. The first test of the walk that fails is the fault; `Memory` at any place.
pub fn whole_ring(alloc: Global, bins: &[u8], root: u32) -> Result<Option<Vec<u32>>, LoadFault>
    requires pages { length bins.now % 4096 ≡ 0 }
    requires small { length bins.now ≤ BINS_LIMIT }
    ensures ok { IfOk result (λ found. MatchOption found (IsArena bins.now → Whole bins.now root → ⊥)
        (λ ring. IsArena bins.now × IsWholeWith bins.now root ring.items)) }
    ensures tree { IfOk result (λ found. IfSome found (λ ring. tree_in (bins_walk bins.now 5 root nothing) ≡ Ok (tree_at bins.now root))) }
    ensures err { IfErr result (λ fault. Meets fault (bins_walk bins.now 5 root nothing)) }
{
    match met_keys(alloc, bins, root) {
        Ok(Some(keys)) => ring_if_whole(alloc, bins, root, keys.as_slice()),
        Ok(None) => Ok(None),
        Err(fault) => Err(fault),
    }
}

/// The tree of bins that are a whole hive, which are taken as they stand. Its one fault is that memory was refused.
pub fn take_whole(alloc: Global, bins: Vec<u8>, root: u32, ring: &[u32]) -> Result<Tree, LoadFault>
    requires some { 0 < length bins.items }
    requires arena { IsArena bins.items }
    requires whole { IsWholeWith bins.items root ring.now }
    ensures ok { IfOk result (λ tree. tree.tree ≡ tree_at bins.items root) }
    ensures stands { IfOk result (λ tree. StandAs tree.bins bins.items) }
    ensures err { IfErr result (λ fault. fault ≡ LoadFault.Memory) }
{
    let Ok(arena) = Arena::adopt(alloc, bins) else {
        return Err(LoadFault::Memory);
    };
    match Tree::adopt(alloc, arena, root, ring) {
        Ok(tree) => Ok(tree),
        Err(_) => Err(LoadFault::Memory),
    }
}
