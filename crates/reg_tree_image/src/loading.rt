//! The tree of an image, loaded from a reader.
//!
//! Suhanov, Windows registry file format specification, section "Format of primary files".

ghost use Rattle.std.specs.Prelude.{◌≡◌, ◌<◌, ◌≤◌, ◌%◌, false, Ok, IsOk, OnOk, IfOk, IfErr, IfSome, IfNone, MatchResult, length};
ghost use Rattle.reg_heap.specs.declared.limits.TheConstants.{BINS_LIMIT};
ghost use Rattle.reg_arena.specs.Arena.{IsArena};
ghost use Rattle.reg_shape.specs.Whole.{Whole};
ghost use Rattle.reg_tree.specs.TreeKeys.{IsWholeWith, tree_in as tree_at};
ghost use Rattle.reg_text.specs.Failures.{Stays};
ghost use Rattle.reg_tree_image.specs.Images.{nothing, tree_in, bins_walk};
ghost use Rattle.reg_tree_image.specs.Loads.{fault_number, ReadsImage, ReadsNumbered, MeetsFault, MeetsFaultBy, IsForeign, IsAny, IsBlamed, SparesOwn, StandAs, TakesOwn};
ghost use Rattle.reg_tree_image.specs.CrowdedBins.{AreCrowded};
ghost use Rattle.reg_tree_image.specs.Internal.Stacks.{FailsAs};
ghost use Rattle.reg_tree_image.specs.Internal.CheckedStacks.{Meets};

use crate::LoadFault;
use crate::block::{BaseBlock, read_block};
use crate::cells::word_at;
use crate::checking::check_keys;
use crate::free_cells::{is_loose, live_bytes};
use crate::input::{fill, read_bytes};
use crate::room::Building;
use crate::scan::scan;
use crate::walk::walk;
use crate::whole::{WRITTEN_MINOR, take_whole, whole_ring};
use reg_text::Source;
use reg_tree::Tree;
use std::alloc::Global;

/// A tree that was loaded, with the sequence number of its image.
#[derive(Drop)]
pub struct NumberedTree {
    /// The keys, in the image's bins or in bins that were built anew.
    pub tree: Tree,
    /// The sequence number, which the base block has twice.
    pub sequence: u32,
}

impl LoadFault {
    /// The fault's number: 1 Read, 2 Short, 3 Signature, 4 Version, 5 Checksum, 6 Dirty, 7 Bins, 8 Cells, 9 Record, 10 Loop,
    /// 11 Twice, 12 NotInProfile, 13 Limit, 14 Memory.
    pub fn number(&self) -> u8
        ensures { result ≡ fault_number self.now }
    {
        match self {
            LoadFault::Read => 1,
            LoadFault::Short => 2,
            LoadFault::Signature => 3,
            LoadFault::Version => 4,
            LoadFault::Checksum => 5,
            LoadFault::Dirty => 6,
            LoadFault::Bins => 7,
            LoadFault::Cells => 8,
            LoadFault::Record => 9,
            LoadFault::Loop => 10,
            LoadFault::Twice => 11,
            LoadFault::NotInProfile => 12,
            LoadFault::Limit => 13,
            LoadFault::Memory => 14,
        }
    }
}

/// The tree of the keys in foreign bins, built anew in the one way or the other: `Limit` also where the new bins have no room for a key
/// that is met before any fault.
fn build_by(building: Building, bins: &[u8], block: BaseBlock) -> Result<Tree, LoadFault>
    requires pages { length bins.now % 4096 ≡ 0 }
    requires small { length bins.now ≤ BINS_LIMIT }
    ensures ok { IfOk result (λ tree. tree_in (bins_walk bins.now block.minor block.root nothing) ≡ Ok tree.tree) }
    ensures err { IfErr result (λ fault. FailsAs (AreCrowded building.ahead bins.now block.minor block.root) fault
        (bins_walk bins.now block.minor block.root nothing)) }
{
    let mut table = scan(building.alloc, bins)?;
    walk(building, bins, block.minor, &mut table, block.root)
}

/// A tree that was built, or, where much of its bins is free, one of the same keys that is built once it is known how many bytes they
/// take, if that has smaller bins.
fn closer(alloc: Global, bins: &[u8], block: BaseBlock, built: Tree) -> Tree
    requires pages { length bins.now % 4096 ≡ 0 }
    requires small { length bins.now ≤ BINS_LIMIT }
    requires built { tree_in (bins_walk bins.now block.minor block.root nothing) ≡ Ok built.tree }
    ensures { tree_in (bins_walk bins.now block.minor block.root nothing) ≡ Ok result.tree }
{
    let size = built.arena().bins_size();
    let live = live_bytes(built.arena());
    if !is_loose(size, live) {
        return built;
    }
    let building = Building {
        alloc,
        ahead: true,
        to_build: Some(live),
    };
    let Ok(again) = build_by(building, bins, block) else {
        return built;
    };
    if again.arena().bins_size() < size {
        return again;
    }
    built
}

/// The tree of the keys in foreign bins, built anew. Room is made ahead, so that little of the bins stays free; where that takes too
/// much, the tree is built once more, of just the cells that its keys take: `Limit` also where these bins have no room for a key that
/// is met before any fault.
pub fn build_keys(alloc: Global, bins: &[u8], block: BaseBlock) -> Result<Tree, LoadFault>
    requires pages { length bins.now % 4096 ≡ 0 }
    requires small { length bins.now ≤ BINS_LIMIT }
    ensures ok { IfOk result (λ tree. tree_in (bins_walk bins.now block.minor block.root nothing) ≡ Ok tree.tree) }
    ensures err { IfErr result (λ fault. FailsAs (AreCrowded false bins.now block.minor block.root) fault
        (bins_walk bins.now block.minor block.root nothing)) }
{
    let mut building = Building {
        alloc,
        ahead: true,
        to_build: None,
    };
    match build_by(building, bins, block) {
        Ok(tree) => Ok(closer(alloc, bins, block, tree)),
        Err(LoadFault::Limit) => {
            building.ahead = false;
            build_by(building, bins, block)
        }
        failed => failed,
    }
}

/// Makes the tests of the keys in foreign bins, and builds none: the first that fails is the fault.
fn test_keys(alloc: Global, bins: &[u8], block: BaseBlock) -> Result<(), LoadFault>
    requires pages { length bins.now % 4096 ≡ 0 }
    requires small { length bins.now ≤ BINS_LIMIT }
    ensures ok { OnOk result (IsOk (bins_walk bins.now block.minor block.root nothing)) }
    ensures err { IfErr result (λ fault. Meets fault (bins_walk bins.now block.minor block.root nothing)) }
{
    let mut table = scan(alloc, bins)?;
    let mut noted = Vec::new(alloc);
    check_keys(alloc, bins, block.minor, &mut table, &mut noted, block.root)
}

/// The tree of the keys in foreign bins, built anew. Where the new bins have no room for a key, the tests go on without building, and that
/// is the fault only where none of them fails.
fn build_tree(alloc: Global, bins: &[u8], block: BaseBlock) -> Result<Tree, LoadFault>
    requires pages { length bins.now % 4096 ≡ 0 }
    requires small { length bins.now ≤ BINS_LIMIT }
    ensures ok { IfOk result (λ tree. tree_in (bins_walk bins.now block.minor block.root nothing) ≡ Ok tree.tree) }
    ensures err { IfErr result (λ fault. FailsAs (IsOk (bins_walk bins.now block.minor block.root nothing)
        × AreCrowded false bins.now block.minor block.root) fault (bins_walk bins.now block.minor block.root nothing)) }
{
    let built = build_keys(alloc, bins, block);
    if let Err(LoadFault::Limit) = built {
        test_keys(alloc, bins, block)?;
    }
    built
}

/// What becomes of bins that are a whole hive, as this project writes it.
#[derive(Clone, Copy, Debug, PartialEq, Eq)]
enum Wholes {
    /// They are taken as they stand.
    Taken,
    /// Their keys are built anew, as those of all others.
    BuiltAnew,
}

/// The ring of securities of bins that are to be taken as they stand, if they are.
fn ring_to_take(
    alloc: Global,
    bins: &[u8],
    block: BaseBlock,
    wholes: Wholes,
) -> Result<Option<Vec<u32>>, LoadFault>
    requires pages { length bins.now % 4096 ≡ 0 }
    requires small { length bins.now ≤ BINS_LIMIT }
    ensures none { IfOk result (λ found. IfNone found (wholes ≡ Wholes.Taken → block.minor ≡ 5 → IsArena bins.now → Whole bins.now block.root → ⊥)) }
    ensures some { IfOk result (λ found. IfSome found (λ ring. IsArena bins.now × IsWholeWith bins.now block.root ring.items)) }
    ensures tree { IfOk result (λ found. IfSome found (λ ring.
        tree_in (bins_walk bins.now block.minor block.root nothing) ≡ Ok (tree_at bins.now block.root))) }
    ensures err { IfErr result (λ fault. Meets fault (bins_walk bins.now block.minor block.root nothing)) }
{
    if wholes == Wholes::Taken && block.minor == WRITTEN_MINOR {
        return whole_ring(alloc, bins, block.root);
    }
    Ok(None)
}

/// The tree of the keys in foreign bins: in these bins themselves where they are a whole hive and such are taken, and else built anew.
fn tree_of(
    alloc: Global,
    bins: Vec<u8>,
    block: BaseBlock,
    wholes: Wholes,
) -> Result<Tree, LoadFault>
    requires some { 0 < length bins.items }
    requires pages { length bins.items % 4096 ≡ 0 }
    requires small { length bins.items ≤ BINS_LIMIT }
    ensures ok { IfOk result (λ tree. tree_in (bins_walk bins.items block.minor block.root nothing) ≡ Ok tree.tree) }
    ensures err { IfErr result (λ fault. FailsAs (IsOk (bins_walk bins.items block.minor block.root nothing)
        × AreCrowded false bins.items block.minor block.root) fault (bins_walk bins.items block.minor block.root nothing)) }
    ensures own { wholes ≡ Wholes.Taken → block.minor ≡ 5 → IsArena bins.items → Whole bins.items block.root →
        IfErr result (λ fault. fault ≡ LoadFault.Memory) }
    ensures stands { wholes ≡ Wholes.Taken → block.minor ≡ 5 → IsArena bins.items → Whole bins.items block.root →
        IfOk result (λ tree. StandAs tree.bins bins.items) }
{
    match ring_to_take(alloc, bins.as_slice(), block, wholes) {
        Ok(Some(ring)) => take_whole(alloc, bins, block.root, ring.as_slice()),
        Ok(None) => build_tree(alloc, bins.as_slice(), block),
        Err(met) => Err(met),
    }
}

/// Loads a tree from an image, as [`load_tree`] says, and hands out the sequence number of its image with it.
fn load_by<R: Source>(
    alloc: Global,
    input: &mut R,
    wholes: Wholes,
) -> Result<NumberedTree, LoadFault>
    ensures ok { IfOk result (λ numbered.
        ReadsNumbered (R.remaining input.old) (R.remaining input.new) numbered.tree.tree numbered.sequence) }
    ensures err { IfErr result (λ fault. MeetsFaultBy (λ image. wholes ≡ Wholes.Taken → IsForeign image) fault
        (R.remaining input.old) (R.remaining input.new)) }
    ensures failures { MatchResult result (λ _. Stays (R.failures input.old) (R.failures input.new))
        (λ fault. IsBlamed fault (R.failures input.old) (R.failures input.new)) }
    ensures own { wholes ≡ Wholes.Taken → IfErr result (λ fault. SparesOwn fault (R.remaining input.old)) }
    ensures stands { wholes ≡ Wholes.Taken → IfOk result (λ numbered. TakesOwn numbered.tree.bins (R.remaining input.old)) }
{
    let mut head = [0u8; 4096];
    fill(input, &mut head)?;
    let block = read_block(&head)?;
    let bins = read_bytes(alloc, input, block.size as usize)?;
    let tree = tree_of(alloc, bins, block, wholes)?;
    let sequence = word_at(&head, 4);
    Ok(NumberedTree { tree, sequence })
}

/// Loads a tree from an image: reads its base block, then the bins behind it and no byte more. Bins that are a whole hive as this project
/// writes it are taken as they stand; of others bins are built anew of the keys that they hold. The tree is the same by either way.
///
/// The first test that fails is the fault. `Short` where the image ends before its base block or its bins do, `Read` only where a read
/// fails, and then no other is made: one that is interrupted fails too. Of the base block `Signature`, `Version`, `Checksum`, `Dirty`,
/// `Bins` and `Limit`; of the bins, once all are read, `Bins` where the header of one is bad, else `Cells` where a cell's size is; of the
/// keys, as they are met from the root on, `Record`, `Loop`, `Twice`, `NotInProfile` and `Limit`. Where none of these tests fails, `Limit`
/// comes for want of room in the new bins: bins that came about by building the keys in the order in which they are met, each with just the
/// cells that it takes, and grew only where no free cell had room for the cells of a key or of values. They have none for a key's key node
/// with its class, its descriptor and its place in a list, or then none for its values: for as many of them together, from the first on, as
/// have cells of at most 16,777,216 bytes with a list that has room for all, or then again for as many of those that are left as have cells
/// of at most so many bytes. No room is that no free cell has room for all cells of one of these, and that with a bin more for them the
/// bins would pass 268,435,456 bytes. `Memory` may come as soon as the base block passed. The image of a whole hive meets none of these but
/// `Read` and `Memory`.
pub fn load_tree<R: Source>(alloc: Global, input: &mut R) -> Result<Tree, LoadFault>
    ensures ok { IfOk result (λ tree. ReadsImage (R.remaining input.old) (R.remaining input.new) tree.tree) }
    ensures err { IfErr result (λ fault. MeetsFault fault (R.remaining input.old) (R.remaining input.new)) }
    ensures failures { MatchResult result (λ _. Stays (R.failures input.old) (R.failures input.new))
        (λ fault. IsBlamed fault (R.failures input.old) (R.failures input.new)) }
    ensures own { IfErr result (λ fault. SparesOwn fault (R.remaining input.old)) }
    ensures stands { IfOk result (λ tree. TakesOwn tree.bins (R.remaining input.old)) }
{
    match load_numbered(alloc, input) {
        Ok(numbered) => Ok(numbered.tree),
        Err(fault) => Err(fault),
    }
}

/// Loads a tree as [`load_tree`] does, and hands out the sequence number of its image with it.
pub fn load_numbered<R: Source>(alloc: Global, input: &mut R) -> Result<NumberedTree, LoadFault>
    ensures ok { IfOk result (λ numbered.
        ReadsNumbered (R.remaining input.old) (R.remaining input.new) numbered.tree.tree numbered.sequence) }
    ensures err { IfErr result (λ fault. MeetsFault fault (R.remaining input.old) (R.remaining input.new)) }
    ensures failures { MatchResult result (λ _. Stays (R.failures input.old) (R.failures input.new))
        (λ fault. IsBlamed fault (R.failures input.old) (R.failures input.new)) }
    ensures own { IfErr result (λ fault. SparesOwn fault (R.remaining input.old)) }
    ensures stands { IfOk result (λ numbered. TakesOwn numbered.tree.bins (R.remaining input.old)) }
{
    load_by(alloc, input, Wholes::Taken)
}

/// Loads a tree as [`load_numbered`] does, but in bins that are built anew in any case, so that both ways can be compared. `Limit` comes
/// also of the image of a whole hive, where the new bins have no room for a key.
pub fn load_anew<R: Source>(alloc: Global, input: &mut R) -> Result<NumberedTree, LoadFault>
    ensures ok { IfOk result (λ numbered.
        ReadsNumbered (R.remaining input.old) (R.remaining input.new) numbered.tree.tree numbered.sequence) }
    ensures err { IfErr result (λ fault. MeetsFaultBy IsAny fault (R.remaining input.old) (R.remaining input.new)) }
    ensures failures { MatchResult result (λ _. Stays (R.failures input.old) (R.failures input.new))
        (λ fault. IsBlamed fault (R.failures input.old) (R.failures input.new)) }
{
    load_by(alloc, input, Wholes::BuiltAnew)
}
