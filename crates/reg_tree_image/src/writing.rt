//! The image of a tree, made and written.
//!
//! Suhanov, Windows registry file format specification, section "Format of primary files".

ghost use Rattle.std.specs.Prelude.{◌≡◌, ◌≤◌, ◌+◌, ◌++◌, [], Ok, OnOk, IfOk, IfErr, MatchResult, length, take};
ghost use Rattle.std.specs.Io.KnownBytes.{Appends};
ghost use Rattle.byteorder.specs.Endian.{little_bytes};
ghost use Rattle.reg_heap.specs.ByteWords.{splice};
ghost use Rattle.reg_text.specs.Failures.{Stays, Fails};
ghost use Rattle.reg_tree_image.specs.BaseBlock.{block_of};
ghost use Rattle.reg_tree_image.specs.Images.{image_of, loaded};
ghost use Rattle.reg_tree_image.specs.Loads.{HoldsOwn};
ghost use Rattle.reg_tree_image.specs.Internal.BlockFields.{block_fields as fields_of};

use crate::block::head_checksum;
use reg_arena::Arena;
use reg_text::{Sink, write_counted};
use reg_tree::Tree;
use std::alloc::{AllocError, Global};
use thiserror::Error;

/// Why the image of a tree wasn't made.
#[derive(Clone, Copy, Debug, PartialEq, Eq, Error)]
pub enum ImageFault {
    /// Memory runs out.
    #[error("no memory for the image")]
    Memory,
}

/// A write that failed, or took no byte, or a flush that failed.
#[derive(Clone, Copy, Debug, PartialEq, Eq, Error)]
#[error("a write failed after {written} bytes")]
pub struct WriteFault {
    /// How many bytes were written before.
    pub written: u64,
}

impl From<AllocError> for ImageFault {
    ghost use Rattle.reg_tree_image.specs.declared.writing.ImageFault.{ImageFault};

    ghost from_gives = { λ _ e. e ≡ ImageFault.Memory };

    fn from(_fault: AllocError) -> ImageFault {
        ImageFault::Memory
    }
}

/// The bytes of a 32-bit number, the lowest first.
fn word_bytes(number: u32) -> [u8; 4]
    ensures { result ≡ little_bytes 4 number }
{
    number.to_le_bytes()
}

/// The bytes of a 64-bit number, the lowest first.
fn long_bytes(number: u64) -> [u8; 8]
    ensures { result ≡ little_bytes 8 number }
{
    number.to_le_bytes()
}

/// The fields of a base block before the file name: `regf`, the sequence number twice, the moment, version 1.5, a primary file, loaded
/// directly, the root, the size of the bins, a clustering factor of 1.
fn block_fields(size: u32, root: u32, moment: u64, sequence: u32) -> [u8; 48]
    ensures { result ≡ fields_of size root moment sequence }
{
    let [s0, s1, s2, s3] = word_bytes(sequence);
    let [m0, m1, m2, m3, m4, m5, m6, m7] = long_bytes(moment);
    let [r0, r1, r2, r3] = word_bytes(root);
    let [z0, z1, z2, z3] = word_bytes(size);
    [
        b'r', b'e', b'g', b'f', s0, s1, s2, s3, s0, s1, s2, s3, m0, m1, m2, m3, m4, m5, m6, m7, 1,
        0, 0, 0, 5, 0, 0, 0, 0, 0, 0, 0, 1, 0, 0, 0, r0, r1, r2, r3, z0, z1, z2, z3, 1, 0, 0, 0,
    ]
}

/// Writes a piece over bytes.
#[tactic(auto, unfolding(reg_heap::specs::ByteWords::splice))]
fn put(bytes: &mut [u8], at: usize, piece: &[u8])
    requires { at + length piece.now ≤ length bytes.old }
    ensures { bytes.new ≡ splice at piece.now bytes.old }
{
    bytes[at..at + piece.len()].copy_from_slice(piece);
}

/// The base block of an image of bins of a size.
pub fn base_block(size: u32, root: u32, moment: u64, sequence: u32) -> [u8; 4096]
    ensures { result ≡ block_of size root moment sequence }
{
    let mut block = [0; 4096];
    put(&mut block, 0, &block_fields(size, root, moment, sequence));
    let checksum = head_checksum(&block);
    put(&mut block, 508, &word_bytes(checksum));
    block
}

/// Makes the base block, in an empty vector.
fn push_block(
    out: &mut Vec<u8>,
    size: u32,
    root: u32,
    moment: u64,
    sequence: u32,
) -> Result<(), AllocError>
    requires { out.old.items ≡ [] }
    ensures { OnOk result (out.new.items ≡ block_of size root moment sequence) }
{
    out.extend_from_slice(&base_block(size, root, moment, sequence))
}

/// Copies the bins, page by page.
pub fn push_bins(out: &mut Vec<u8>, arena: &Arena) -> Result<(), AllocError>
    ensures { OnOk result (out.new.items ≡ out.old.items ++ arena.now.bytes) }
{
    for page in 0..arena.bins_size() / 4096 {
        out.extend_from_slice(arena.bytes(page * 4096, 4096))?;
    }
    Ok(())
}

/// The image of a tree, with a moment (100 ns units since 1601) and a sequence number: a base block, and its bins as they are.
///
/// By the rules of loading it has no fault, and this tree (clause `loads`); a load of it may lack memory, and nothing else (clause
/// `own`). `Memory` is the only fault of making it.
pub fn make_image(
    alloc: Global,
    tree: &Tree,
    moment: u64,
    sequence: u32,
) -> Result<Vec<u8>, ImageFault>
    ensures is { IfOk result (λ bytes. bytes.items ≡ image_of tree.now.bins.bytes tree.now.root moment sequence) }
    ensures loads { IfOk result (λ bytes. loaded bytes.items ≡ Ok tree.now.tree) }
    ensures own { IfOk result (λ bytes. HoldsOwn bytes.items) }
{
    let arena = tree.arena();
    let size = arena.bins_size();
    let root = tree.root().offset;
    let mut out = Vec::with_capacity(alloc, 4096 + size as usize)?;
    push_block(&mut out, size, root, moment, sequence)?;
    push_bins(&mut out, arena)?;
    Ok(out)
}

/// Writes the bytes of an image, and has the writer pass them on.
///
/// A write that fails, or takes no byte, is the fault, and so is a flush that fails: then all bytes were written. What the writer
/// took before stands. The fault comes only where one of these calls failed, and none is made after it.
pub fn write_image<W: Sink>(bytes: &[u8], writer: &mut W) -> Result<(), WriteFault>
    ensures ok { OnOk result (Appends (W.contents writer.old) (W.contents writer.new) bytes.now) }
    ensures err { IfErr result (λ fault. (fault.written ≤ length bytes.now)
        × Appends (W.contents writer.old) (W.contents writer.new) (take fault.written bytes.now)) }
    ensures flushed { OnOk result (W.is_flushed writer.new) }
    ensures failures { MatchResult result (λ _. Stays (W.failures writer.old) (W.failures writer.new))
        (λ _. Fails (W.failures writer.old) (W.failures writer.new)) }
{
    let taken = write_counted(writer, bytes);
    let fault = WriteFault {
        written: taken as u64,
    };
    if taken < bytes.len() {
        return Err(fault);
    }
    match writer.pass_on() {
        Ok(()) => Ok(()),
        Err(_) => Err(fault),
    }
}
