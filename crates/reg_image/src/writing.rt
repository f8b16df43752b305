//! The image of a hive, made and written.

ghost use Rattle.std.specs.Prelude.{◌≡◌, ◌≤◌, Ok, OnOk, IfOk, IfErr, MatchResult, length, take};
ghost use Rattle.std.specs.Io.KnownBytes.{Appends};
ghost use Rattle.reg_text.specs.Failures.{Stays, Fails};
ghost use Rattle.reg_calls.specs.HiveView.{view_of};
ghost use Rattle.reg_tree_image.specs.Images.{image_of, loaded};
ghost use Rattle.reg_tree_image.specs.Loads.{HoldsOwn};

use reg_callbacks::Callback;
use reg_calls::Hive;
use reg_text::Sink;
use reg_tree_image::{ImageFault, WriteFault, make_image, write_tree};
use std::alloc::Global;

/// The image of a hive, with a moment (100 ns units since 1601) and a sequence number: a base block, and its bins as they are.
///
/// By the rules of loading it has no fault, and the hive's tree (clause `loads`); a load of it may lack memory, and nothing else
/// (clause `own`). `Memory` is the only fault of making it.
pub fn image<C: Callback>(
    alloc: Global,
    hive: &Hive<C>,
    moment: u64,
    sequence: u32,
) -> Result<Vec<u8>, ImageFault>
    ensures is { IfOk result (λ bytes. bytes.items
        ≡ image_of (view_of hive.now).keys.bins.bytes (view_of hive.now).keys.root moment sequence) }
    ensures loads { IfOk result (λ bytes. loaded bytes.items ≡ Ok (view_of hive.now).keys.tree) }
    ensures own { IfOk result (λ bytes. HoldsOwn bytes.items) }
{
    make_image(alloc, hive.tree(), moment, sequence)
}

/// Writes the image of a hive, with a moment (100 ns units since 1601) and a sequence number, and has the writer pass it on.
///
/// Its bytes are those that [`image`](crate::image) makes, but no copy of them is made: the bins are written one by one, as they
/// stand, and it takes no memory. By the rules of loading they have no fault, and the hive's tree (clause
/// `loads`); a load of them may lack memory, and nothing else (clause `own`).
///
/// A write that fails, or takes no byte, is the fault, and so is a flush that fails: then all bytes were written. What the writer
/// took before stands. The fault comes only where one of these calls failed, and none is made after it.
pub fn write_hive<W: Sink, C: Callback>(
    hive: &Hive<C>,
    moment: u64,
    sequence: u32,
    writer: &mut W,
) -> Result<(), WriteFault>
    ensures ok { OnOk result (Appends (W.contents writer.old) (W.contents writer.new)
        (image_of (view_of hive.now).keys.bins.bytes (view_of hive.now).keys.root moment sequence)) }
    ensures err { IfErr result (λ fault.
        (fault.written ≤ length (image_of (view_of hive.now).keys.bins.bytes (view_of hive.now).keys.root moment sequence))
        × Appends (W.contents writer.old) (W.contents writer.new)
        (take fault.written (image_of (view_of hive.now).keys.bins.bytes (view_of hive.now).keys.root moment sequence))) }
    ensures flushed { OnOk result (W.is_flushed writer.new) }
    ensures failures { MatchResult result (λ _. Stays (W.failures writer.old) (W.failures writer.new))
        (λ _. Fails (W.failures writer.old) (W.failures writer.new)) }
    ensures loads { loaded (image_of (view_of hive.now).keys.bins.bytes (view_of hive.now).keys.root moment sequence)
        ≡ Ok (view_of hive.now).keys.tree }
    ensures own { HoldsOwn (image_of (view_of hive.now).keys.bins.bytes (view_of hive.now).keys.root moment sequence) }
{
    write_tree(hive.tree(), moment, sequence, writer)
}
