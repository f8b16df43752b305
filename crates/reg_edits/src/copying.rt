//! What a key copied from one file's hive to another's makes of the other: both loaded, the key copied, and what the other's image is to be
//! saved with.

ghost use Rattle.std.specs.Prelude.{IfOk, IfErr, MatchResult};
ghost use Rattle.reg_text.specs.Failures.{Stays};
ghost use Rattle.reg_edits.specs.KeyCopies.{CopiesFrom, Copies, CopyFromEnds, CopyEnds, CopyFromBlames, CopyBlames};

use crate::edits::next_sequence;
use reg_copy::CopyFault;
use reg_image::LoadFault;
use reg_text::Source;
use reg_tree::Tree;
use reg_tree_image::{NumberedTree, load_numbered, load_tree};
use std::alloc::Global;

/// A file's tree with a key that was copied into it, and what its image is to be saved with.
#[derive(Drop)]
pub struct CopiedTree {
    pub tree: Tree,
    /// The moment of the image, in units of 100 ns since 1601.
    pub moment: u64,
    /// The sequence number of the image: that of the file's image, and one more.
    pub sequence: u32,
}

/// What ended a copy before there was anything to save.
#[derive(Clone, Copy, Debug, PartialEq, Eq)]
pub enum CopyEnd {
    /// The image that has the key doesn't load, or there is no memory for its tree.
    Source(LoadFault),
    /// The image that gets the copy doesn't load, or there is no memory for its tree.
    Target(LoadFault),
    /// The key can't be copied.
    Copy(CopyFault),
}

/// Loads a tree from the image at the front of a file, and copies a key of another tree into it.
fn copy_from<F: Source>(
    alloc: Global,
    source: &Tree,
    from: &[u8],
    file: &mut F,
    into: &[u8],
    moment: u64,
) -> Result<CopiedTree, CopyEnd>
    ensures ok { IfOk result (λ copied. CopiesFrom source.now.tree from.now into.now moment copied (F.remaining file.old) (F.remaining file.new)) }
    ensures err { IfErr result (λ end. CopyFromEnds end source.now.tree from.now into.now (F.remaining file.old) (F.remaining file.new)) }
    ensures failures { MatchResult result (λ _. Stays (F.failures file.old) (F.failures file.new))
        (λ end. CopyFromBlames end (F.failures file.old) (F.failures file.new)) }
{
    let NumberedTree { mut tree, sequence } = match load_numbered(alloc, file) {
        Ok(numbered) => numbered,
        Err(fault) => return Err(CopyEnd::Target(fault)),
    };
    match reg_copy::copy(alloc, source, from, &mut tree, into, moment) {
        Ok(()) => Ok(CopiedTree {
            tree,
            moment,
            sequence: next_sequence(sequence),
        }),
        Err(fault) => Err(CopyEnd::Copy(fault)),
    }
}

/// Loads a tree from the image at the front of each of two files, copies the key at a path of the first, with all that is below it, to
/// right below the key at a path of the second ([`reg_copy::copy`]), and answers the second with the moment of the copy and the next
/// sequence number.
///
/// `Source` where the first image doesn't load, and then nothing was read of the second file; else `Target` where the second one doesn't;
/// else `Copy`.
pub fn copy<S: Source, F: Source>(
    alloc: Global,
    source: &mut S,
    from: &[u8],
    file: &mut F,
    into: &[u8],
    moment: u64,
) -> Result<CopiedTree, CopyEnd>
    ensures ok { IfOk result (λ copied. Copies from.now into.now moment copied (S.remaining source.old) (S.remaining source.new)
        (F.remaining file.old) (F.remaining file.new)) }
    ensures err { IfErr result (λ end. CopyEnds end from.now into.now (S.remaining source.old) (S.remaining source.new)
        (F.remaining file.old) (F.remaining file.new)) }
    ensures failures { MatchResult result
        (λ _. Stays (S.failures source.old) (S.failures source.new) × Stays (F.failures file.old) (F.failures file.new))
        (λ end. CopyBlames end (S.failures source.old) (S.failures source.new) (F.failures file.old) (F.failures file.new)) }
{
    let tree = match load_tree(alloc, source) {
        Ok(tree) => tree,
        Err(fault) => return Err(CopyEnd::Source(fault)),
    };
    copy_from(alloc, &tree, from, file, into, moment)
}
