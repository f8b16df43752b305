//! A value of an image, found by its path without loading the image's tree.
//!
//! Suhanov, Windows registry file format specification, section "Format of primary files".

ghost use Rattle.std.specs.Prelude.{◌≡◌, ◌≤◌, ◌%◌, true, Ok, OnOk, IfOk, IfErr, MatchResult, length};
ghost use Rattle.reg_names.specs.Names.{is_path, path_of};
ghost use Rattle.reg_heap.specs.declared.limits.TheConstants.{BINS_LIMIT};
ghost use Rattle.reg_text.specs.Failures.{Stays};
ghost use Rattle.reg_tree_image.specs.declared.LoadFault.{LoadFault};
ghost use Rattle.reg_tree_image.specs.Images.{nothing};
ghost use Rattle.reg_tree_image.specs.Loads.{IsBlamed, SparesOwn};
ghost use Rattle.reg_tree_image.specs.PathLoads.{bins_path, value_walk, result_in, FindsThere, MissesThere};
ghost use Rattle.reg_tree_image.specs.ValuesAtPaths.{value_there};
ghost use Rattle.reg_tree_image.specs.Internal.ReachedKeys.{found_in};
ghost use Rattle.reg_tree_image.specs.Internal.ReaderOutcomes.{Fails};

use crate::LoadFault;
use crate::block::{BaseBlock, read_block};
use crate::input::{fill, read_bytes};
use crate::path_walk::{FoundOnPath, value_on_path};
use crate::scan::scan;
use reg_text::Source;
use std::alloc::Global;

/// What an image has at a path, under a value's name.
#[derive(Drop)]
pub enum ValueAtPath {
    /// The path leads to no key.
    NoKey,
    /// The key there has no value of the name.
    NoValue,
    /// That value.
    Value {
        /// Its name, as it was given.
        name: Vec<u8>,
        /// The type of its data.
        kind: u32,
        /// Its data.
        bytes: Vec<u8>,
    },
}

/// A copy of bytes.
pub fn copy_of(alloc: Global, bytes: &[u8]) -> Result<Vec<u8>, LoadFault>
    ensures ok { IfOk result (λ copy. copy.items ≡ bytes.now) }
    ensures err { IfErr result (λ fault. fault ≡ LoadFault.Memory) }
{
    let mut copy = Vec::new(alloc);
    if copy.extend_from_slice(bytes).is_err() {
        return Err(LoadFault::Memory);
    }
    Ok(copy)
}

/// A copy of what was found, which needs the image no more.
fn owned(alloc: Global, found: FoundOnPath<'_>) -> Result<ValueAtPath, LoadFault>
    ensures ok { IfOk result (λ owned. value_there owned ≡ found_in found.entry) }
    ensures err { IfErr result (λ fault. fault ≡ LoadFault.Memory) }
{
    match found {
        FoundOnPath::NoKey => Ok(ValueAtPath::NoKey),
        FoundOnPath::NoValue => Ok(ValueAtPath::NoValue),
        FoundOnPath::Value(value) => {
            let name = copy_of(alloc, value.name.as_slice())?;
            let bytes = copy_of(alloc, value.bytes.as_slice())?;
            Ok(ValueAtPath::Value {
                name,
                kind: value.kind,
                bytes,
            })
        }
    }
}

/// What foreign bins have at a path, under a value's name.
fn value_in_bins(
    alloc: Global,
    bins: &[u8],
    block: BaseBlock,
    path: &[u8],
    name: &[u8],
) -> Result<ValueAtPath, LoadFault>
    requires pages { length bins.now % 4096 ≡ 0 }
    requires small { length bins.now ≤ BINS_LIMIT }
    requires path { is_path path.now ≡ true }
    ensures ok { IfOk result (λ value. result_in (bins_path (value_walk (path_of path.now) name.now) bins.now block.minor block.root nothing) ≡ Ok (value_there value)) }
    ensures err { IfErr result (λ fault. Fails fault (bins_path (value_walk (path_of path.now) name.now) bins.now block.minor block.root) nothing) }
{
    let mut table = scan(alloc, bins)?;
    let found = value_on_path(alloc, bins, block.minor, &mut table, block.root, path, name)?;
    owned(alloc, found)
}

/// What an image has at a path, under a value's name: reads its base block, then the bins behind it and no byte more, and tests the bins
/// and the cells; of the records only those are read that are passed in looking for the key and then the value. Names are compared after
/// folding.
///
/// The first test on the way that fails is the fault. Where the image would load, it is what its tree has there, and only a read may fail
/// or memory lack. Of an image that doesn't load there may be an answer, or another fault than loading meets, since not all is read.
pub fn value_at_path<R: Source>(
    alloc: Global,
    input: &mut R,
    path: &[u8],
    name: &[u8],
) -> Result<ValueAtPath, LoadFault>
    requires path { is_path path.now ≡ true }
    ensures ok { IfOk result (λ value. FindsThere (R.remaining input.old) (R.remaining input.new) (path_of path.now) name.now (value_there value)) }
    ensures err { IfErr result (λ fault. MissesThere fault (R.remaining input.old) (R.remaining input.new) (path_of path.now) name.now) }
    ensures failures { MatchResult result (λ _. Stays (R.failures input.old) (R.failures input.new))
        (λ fault. IsBlamed fault (R.failures input.old) (R.failures input.new)) }
    ensures own { IfErr result (λ fault. SparesOwn fault (R.remaining input.old)) }
{
    let mut head = [0u8; 4096];
    fill(input, &mut head)?;
    let block = read_block(&head)?;
    let bins = read_bytes(alloc, input, block.size as usize)?;
    value_in_bins(alloc, bins.as_slice(), block, path, name)
}
