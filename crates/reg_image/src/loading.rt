//! A hive, loaded from its image.

ghost use Rattle.std.specs.Prelude.{◌≡◌, ◌+◌, ◌≤◌, ℕ, List, [], IfOk, IfErr, MatchResult, length};
ghost use Rattle.std.specs.Io.KnownBytes.{Consumes};
ghost use Rattle.reg_heap.specs.ByteWords.{word};
ghost use Rattle.reg_heap.specs.declared.limits.TheConstants.{BINS_LIMIT};
ghost use Rattle.reg_text.specs.Failures.{Stays};
ghost use Rattle.reg_callbacks.specs.Lists.{rows_of, made_of};
ghost use Rattle.reg_calls.specs.HiveView.{view_of, noted_of, callbacks_of};
ghost use Rattle.reg_tree_image.specs.Loads.{IsRefused, IsBlamed, SparesOwn, TakesOwn};
ghost use Rattle.reg_image.specs.Loads.{IsLoaded};

use reg_callbacks::Callback;
use reg_calls::Hive;
use reg_text::Source;
use reg_tree_image::{LoadFault, NumberedTree};
use std::alloc::Global;

/// A hive that was loaded, with the sequence number of its image.
#[derive(Drop)]
pub struct NumberedHive<C> {
    /// The hive: a new one, of the image's tree.
    pub hive: Hive<C>,
    /// The sequence number, which the base block has twice.
    pub sequence: u32,
}

/// Loads a hive from an image, read as [`load_tree`](reg_tree_image::load_tree) reads it: its base block, then the bins behind it and
/// no byte more.
///
/// The hive is a new one: its journal is empty, no session has a seat, and no callback is registered. The faults are those of that call,
/// and `Memory` also where it lacks for the hive itself. The image that a hive made meets none but `Read` and `Memory` (clause `own`), and
/// is taken as it stands (clause `stands`).
pub fn load<R: Source, C: Callback>(alloc: Global, input: &mut R) -> Result<Hive<C>, LoadFault>
    ensures ok { IfOk result (λ hive. (image : List ℕ) × Consumes (R.remaining input.old) (R.remaining input.new) image
        × IsLoaded image (view_of hive)) }
    ensures noted { IfOk result (λ hive. noted_of hive ≡ []) }
    ensures callbacks { IfOk result (λ hive. (rows_of (callbacks_of hive) ≡ []) × (made_of (callbacks_of hive) ≡ 0)) }
    ensures err { IfErr result (λ fault. (image : List ℕ) × Consumes (R.remaining input.old) (R.remaining input.new) image
        × (length image ≤ 4096 + BINS_LIMIT) × IsRefused fault image (R.remaining input.new)) }
    ensures failures { MatchResult result (λ _. Stays (R.failures input.old) (R.failures input.new))
        (λ fault. IsBlamed fault (R.failures input.old) (R.failures input.new)) }
    ensures own { IfErr result (λ fault. SparesOwn fault (R.remaining input.old)) }
    ensures stands { IfOk result (λ hive. TakesOwn (view_of hive).keys.bins (R.remaining input.old)) }
{
    match load_numbered(alloc, input) {
        Ok(numbered) => Ok(numbered.hive),
        Err(fault) => Err(fault),
    }
}

/// Loads a hive as [`load`] does, and hands out the sequence number of its image with it.
pub fn load_numbered<R: Source, C: Callback>(
    alloc: Global,
    input: &mut R,
) -> Result<NumberedHive<C>, LoadFault>
    ensures ok { IfOk result (λ numbered. (image : List ℕ) × Consumes (R.remaining input.old) (R.remaining input.new) image
        × IsLoaded image (view_of numbered.hive) × (numbered.sequence ≡ word image 4)) }
    ensures noted { IfOk result (λ numbered. noted_of numbered.hive ≡ []) }
    ensures callbacks { IfOk result (λ numbered.
        (rows_of (callbacks_of numbered.hive) ≡ []) × (made_of (callbacks_of numbered.hive) ≡ 0)) }
    ensures err { IfErr result (λ fault. (image : List ℕ) × Consumes (R.remaining input.old) (R.remaining input.new) image
        × (length image ≤ 4096 + BINS_LIMIT) × IsRefused fault image (R.remaining input.new)) }
    ensures failures { MatchResult result (λ _. Stays (R.failures input.old) (R.failures input.new))
        (λ fault. IsBlamed fault (R.failures input.old) (R.failures input.new)) }
    ensures own { IfErr result (λ fault. SparesOwn fault (R.remaining input.old)) }
    ensures stands { IfOk result (λ numbered. TakesOwn (view_of numbered.hive).keys.bins (R.remaining input.old)) }
{
    let NumberedTree { tree, sequence } = reg_tree_image::load_numbered(alloc, input)?;
    match Hive::from_tree(alloc, tree) {
        Ok(hive) => Ok(NumberedHive { hive, sequence }),
        Err(_) => Err(LoadFault::Memory),
    }
}
