//! The image of a tree, written without a copy of its bins.
//!
//! Suhanov, Windows registry file format specification, sections "Format of primary files" and "Hive bin".

ghost use Rattle.std.specs.Prelude.{◌≡◌, ◌+◌, ◌<◌, ◌≤◌, ◌++◌, length, take, Ok, OnOk, IfErr, MatchResult};
ghost use Rattle.std.specs.Io.KnownBytes.{Appends};
ghost use Rattle.reg_heap.specs.ByteWords.{word};
ghost use Rattle.reg_text.specs.Failures.{Stays, Fails};
ghost use Rattle.reg_arena.specs.Cells.{IsInBin};
ghost use Rattle.reg_tree_image.specs.Images.{image_of, loaded};
ghost use Rattle.reg_tree_image.specs.Loads.{HoldsOwn};

use crate::cells::word_at;
use crate::writing::{WriteFault, base_block};
use reg_arena::Arena;
use reg_text::{Sink, write_counted};
use reg_tree::Tree;

/// The size of the bin that begins at an offset, as its header says.
pub fn bin_size(arena: &Arena, at: u32) -> u32
    requires { IsInBin arena.now.bytes at 12 }
    ensures { result ≡ word arena.now.bytes (at + 8) }
{
    word_at(arena.bytes(at, 12), 8)
}

/// Writes the bytes of all bins, bin by bin, and answers how many the writer took: all, unless a write failed or took no byte. Then
/// nothing more is written.
fn write_bins<W: Sink>(arena: &Arena, writer: &mut W) -> u32
    ensures count { result ≤ length arena.now.bytes }
    ensures bytes { Appends (W.contents writer.old) (W.contents writer.new) (take result arena.now.bytes) }
    ensures stays { result ≡ length arena.now.bytes → Stays (W.failures writer.old) (W.failures writer.new) }
    ensures fails { result < length arena.now.bytes → Fails (W.failures writer.old) (W.failures writer.new) }
{
    let end = arena.bins_size();
    let mut at = 0;
    while at < end {
        let size = bin_size(arena, at);
        let taken = write_counted(writer, arena.bytes(at, size)) as u32;
        if taken < size {
            return at + taken;
        }
        at += size;
    }
    at
}

/// Writes a base block and the bins behind it, and answers how many bytes the writer took: all, unless a write failed or took no byte.
/// Then nothing more is written.
fn write_parts<W: Sink>(block: &[u8; 4096], arena: &Arena, writer: &mut W) -> usize
    ensures count { result ≤ 4096 + length arena.now.bytes }
    ensures bytes { Appends (W.contents writer.old) (W.contents writer.new) (take result (block.now ++ arena.now.bytes)) }
    ensures stays { result ≡ 4096 + length arena.now.bytes → Stays (W.failures writer.old) (W.failures writer.new) }
    ensures fails { result < 4096 + length arena.now.bytes → Fails (W.failures writer.old) (W.failures writer.new) }
{
    let taken = write_counted(writer, block);
    if taken < 4096 {
        return taken;
    }
    taken + write_bins(arena, writer) as usize
}

/// Writes a base block and the bins behind it, and has the writer pass them on.
fn write_block_and_bins<W: Sink>(
    block: &[u8; 4096],
    arena: &Arena,
    writer: &mut W,
) -> Result<(), WriteFault>
    ensures ok { OnOk result (Appends (W.contents writer.old) (W.contents writer.new) (block.now ++ arena.now.bytes)) }
    ensures err { IfErr result (λ fault. (fault.written ≤ length (block.now ++ arena.now.bytes))
        × Appends (W.contents writer.old) (W.contents writer.new) (take fault.written (block.now ++ arena.now.bytes))) }
    ensures flushed { OnOk result (W.is_flushed writer.new) }
    ensures failures { MatchResult result (λ _. Stays (W.failures writer.old) (W.failures writer.new))
        (λ _. Fails (W.failures writer.old) (W.failures writer.new)) }
{
    let taken = write_parts(block, arena, writer);
    let fault = WriteFault {
        written: taken as u64,
    };
    if taken < 4096 + arena.bins_size() as usize {
        return Err(fault);
    }
    match writer.pass_on() {
        Ok(()) => Ok(()),
        Err(_) => Err(fault),
    }
}

/// Writes the image of a tree, with a moment (100 ns units since 1601) and a sequence number, and has the writer pass it on.
///
/// Its bytes are those that [`make_image`](crate::make_image) makes, but no copy of them is made: the bins are written one by one, as
/// they stand, and it takes no memory. By the rules of loading they have no fault, and this tree (clause `loads`);
/// a load of them may lack memory, and nothing else (clause `own`).
///
/// A write that fails, or takes no byte, is the fault, and so is a flush that fails: then all bytes were written. What the writer
/// took before stands. The fault comes only where one of these calls failed, and none is made after it.
pub fn write_tree<W: Sink>(
    tree: &Tree,
    moment: u64,
    sequence: u32,
    writer: &mut W,
) -> Result<(), WriteFault>
    ensures ok { OnOk result (Appends (W.contents writer.old) (W.contents writer.new)
        (image_of tree.now.bins.bytes tree.now.root moment sequence)) }
    ensures err { IfErr result (λ fault. (fault.written ≤ length (image_of tree.now.bins.bytes tree.now.root moment sequence))
        × Appends (W.contents writer.old) (W.contents writer.new)
        (take fault.written (image_of tree.now.bins.bytes tree.now.root moment sequence))) }
    ensures flushed { OnOk result (W.is_flushed writer.new) }
    ensures failures { MatchResult result (λ _. Stays (W.failures writer.old) (W.failures writer.new))
        (λ _. Fails (W.failures writer.old) (W.failures writer.new)) }
    ensures loads { loaded (image_of tree.now.bins.bytes tree.now.root moment sequence) ≡ Ok tree.now.tree }
    ensures own { HoldsOwn (image_of tree.now.bins.bytes tree.now.root moment sequence) }
{
    let arena = tree.arena();
    let size = arena.bins_size();
    let root = tree.root().offset;
    let block = base_block(size, root, moment, sequence);
    write_block_and_bins(&block, arena, writer)
}
