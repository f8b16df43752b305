//! Bytes of an image changed.
ghost use Rattle.std.specs.Prelude.{◌≡◌, ◌+◌, ◌≤◌, ◌↔◌, length, take, IsOk, OnOk, OnErr, IfOk};
ghost use Rattle.byteorder.specs.Endian.{little_bytes};
ghost use Rattle.reg_heap.specs.ByteWords.{splice};
ghost use Rattle.reg_tree_image.specs.BaseBlock.{checksum_of};

use crate::FixtureFault;
use hex::FromHexError;
use reg_tree_image::checksum;
use std::alloc::Global;

/// Where the checksum of a base block stands.
const CHECKSUM: usize = 508;

/// Writes bytes over those at a place. The fault is `Place`, where they would pass the end; then nothing changes.
#[tactic(auto, unfolding(reg_heap::specs::ByteWords::splice))]
pub fn put(bytes: &mut [u8], at: usize, new: &[u8]) -> Result<(), FixtureFault>
    ensures fits { IsOk result ↔ (at + length new.now ≤ length bytes.old) }
    ensures put { OnOk result (bytes.new ≡ splice at new.now bytes.old) }
    ensures same { OnErr result (bytes.new ≡ bytes.old) }
{
    let Some(rest) = bytes.len().checked_sub(at) else {
        return Err(FixtureFault::Place);
    };
    if new.len() > rest {
        return Err(FixtureFault::Place);
    }
    bytes[at..at + new.len()].copy_from_slice(new);
    Ok(())
}

/// The checksum of an image's first 4,096 bytes. The fault is `Place`, where there are fewer.
fn sum_of(image: &[u8]) -> Result<u32, FixtureFault>
    ensures ok { IfOk result (λ sum. sum ≡ checksum_of (take 4096 image.now)) }
    ensures long { IsOk result ↔ (4096 ≤ length image.now) }
{
    match image.first_chunk::<4096>() {
        Some(head) => Ok(checksum(head)),
        None => Err(FixtureFault::Place),
    }
}

/// Writes the checksum of an image's base block anew. The fault is `Place`, where it has no 4,096 bytes; then nothing changes.
pub fn seal(image: &mut [u8]) -> Result<(), FixtureFault>
    ensures sealed { OnOk result (image.new ≡ splice 508 (little_bytes 4 (checksum_of (take 4096 image.old))) image.old) }
    ensures same { OnErr result (image.new ≡ image.old) }
{
    let sum = sum_of(image)?;
    put(image, CHECKSUM, &sum.to_le_bytes())
}

/// The bytes that digits stand for. The faults are `Line`, where they aren't whole bytes in digits, and `Memory`.
pub fn bytes_of(alloc: Global, digits: &str) -> Result<Vec<u8>, FixtureFault> {
    match hex::decode(alloc, digits) {
        Ok(bytes) => Ok(bytes),
        Err(FromHexError::OutOfMemory) => Err(FixtureFault::Memory),
        Err(_) => Err(FixtureFault::Line),
    }
}

/// Writes bytes over those of an image: a line has a place, a space and digits. The faults are `Line` and `Number`, where it isn't so,
/// `Place`, where they would pass the end, and `Memory`; the image is then as before.
pub fn put_line(alloc: Global, image: &mut [u8], line: &str) -> Result<(), FixtureFault>
    ensures { OnErr result (image.new ≡ image.old) }
{
    let Some((at, digits)) = line.split_once(' ') else {
        return Err(FixtureFault::Line);
    };
    let Ok(at) = at.parse::<usize>() else {
        return Err(FixtureFault::Number);
    };
    let new = bytes_of(alloc, digits)?;
    put(image, at, &new)
}

/// Writes the changes of a line over those of an image, an offset and digits each, parted by a comma and a space, and the image's checksum
/// anew.
pub fn put_changes(alloc: Global, image: &mut [u8], changes: &str) -> Result<(), FixtureFault> {
    for change in changes.split(", ") {
        put_line(alloc, image, change)?;
    }
    seal(image)
}
