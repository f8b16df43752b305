//! The base block of an image.
//!
//! Suhanov, Windows registry file format specification, section "Base block".

ghost use Rattle.std.specs.Prelude.{◌≡◌, ◌≤◌, length};
ghost use Rattle.reg_heap.specs.ByteWords.{word};
ghost use Rattle.reg_tree_image.specs.BaseBlock.{as_checksum, checksum_of, is_version as is_version_of, block_walk};
ghost use Rattle.reg_tree_image.specs.Internal.ReaderOutcomes.{GivesExactly};

use crate::LoadFault;
use crate::cells::word_at;
use reg_heap::limits::BINS_LIMIT;

/// What loading needs of a base block.
#[derive(Clone, Copy, Debug, PartialEq, Eq)]
pub struct BaseBlock {
    /// The minor version: 3, 4 or 5.
    pub minor: u32,
    /// The offset of the root's key node, of which nothing is known yet.
    pub root: u32,
    /// The size of the bins in bytes: whole pages of 4,096, at least one, and at most 268,435,456 bytes.
    pub size: u32,
}

/// A checksum as it is stored: 0 as 1, and 0xFFFFFFFF as 0xFFFFFFFE.
fn stored(sum: u32) -> u32
    ensures { result ≡ as_checksum sum }
{
    match sum {
        0 => 1,
        0xFFFF_FFFF => 0xFFFF_FFFE,
        _ => sum,
    }
}

/// The checksum of what begins with a base block.
pub fn head_checksum(block: &[u8]) -> u32
    requires { 508 ≤ length block.now }
    ensures { result ≡ checksum_of block.now }
{
    let mut sum = 0;
    let mut at = 508;
    while at > 0 {
        at -= 4;
        sum = word_at(block, at) ^ sum;
    }
    stored(sum)
}

/// The checksum of a base block: the exclusive or of its first 127 words, of which 0 is stored as 1, and 0xFFFFFFFF as 0xFFFFFFFE.
pub fn checksum(block: &[u8; 4096]) -> u32
    ensures { result ≡ checksum_of block.now }
{
    head_checksum(block)
}

/// Whether the version, the file type and the format are those that are read: 1.3, 1.4 or 1.5, a primary file, loaded directly.
fn is_version(block: &[u8]) -> bool
    requires { 36 ≤ length block.now }
    ensures { result ≡ is_version_of block.now }
{
    let minor = word_at(block, 24);
    word_at(block, 20) == 1
        && minor >= 3
        && minor <= 5
        && word_at(block, 28) == 0
        && word_at(block, 32) == 1
}

/// Reads the base block that bytes begin with.
///
/// The first test that fails is the fault: `Signature` where the block doesn't begin with `regf`; `Version` for another version
/// than 1.3, 1.4 and 1.5, another file type than a primary file's, or another format; `Checksum` for another checksum than that of
/// the first 508 bytes; `Dirty` where the two sequence numbers differ; `Bins` for bins of size 0 or of no whole pages of 4,096
/// bytes; `Limit` for bins above 268,435,456 bytes. There is no other fault.
pub fn read_block(block: &[u8]) -> Result<BaseBlock, LoadFault>
    requires { 4096 ≤ length block.now }
    ensures { GivesExactly (block_walk block.now) result }
{
    if word_at(block, 0) != 0x6667_6572 {
        return Err(LoadFault::Signature);
    }
    if !is_version(block) {
        return Err(LoadFault::Version);
    }
    if word_at(block, 508) != head_checksum(block) {
        return Err(LoadFault::Checksum);
    }
    if word_at(block, 4) != word_at(block, 8) {
        return Err(LoadFault::Dirty);
    }
    let size = word_at(block, 40);
    if size == 0 || size % 4096 != 0 {
        return Err(LoadFault::Bins);
    }
    if size > BINS_LIMIT {
        return Err(LoadFault::Limit);
    }
    Ok(BaseBlock {
        minor: word_at(block, 24),
        root: word_at(block, 36),
        size,
    })
}
