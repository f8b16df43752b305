//! Every front of an image, readers that stop behind it, and its bits turned over one by one.
ghost use Rattle.std.specs.Prelude.{◌≡◌, length};

use crate::verdicts::{Tally, judge, judge_bytes};
use anyhow::Result;
use reg_fixtures::{Chance, FakeReader};
use reg_tree_image::checksum;
use std::alloc::Global;

/// Writes bytes over those at an offset; what would stand behind the end is left out.
pub fn put(image: &mut [u8], at: usize, new: &[u8])
    ensures { length image.new ≡ length image.old }
{
    for (slot, byte) in image.iter_mut().skip(at).zip(new.iter()) {
        *slot = *byte;
    }
}

/// Writes the checksum of an image's base block anew.
pub fn seal(image: &mut [u8])
    ensures { length image.new ≡ length image.old }
{
    let mut head = [0; 4096];
    put(&mut head, 0, image);
    put(image, 508, &checksum(&head).to_le_bytes());
}

/// Turns over a bit of an image, counted from the first byte's lowest.
pub fn turn(image: &mut [u8], bit: usize)
    ensures { length image.new ≡ length image.old }
{
    if let Some(byte) = image.get_mut(bit / 8) {
        *byte ^= 1u8 << (bit % 8);
    }
}

/// The verdicts on all fronts of an image, the whole one among them.
pub fn fronts(alloc: Global, image: &[u8]) -> Result<Tally> {
    let mut tally = Tally::NONE;
    for len in 0..image.len() {
        tally.add(judge_bytes(alloc, &image[..len])?);
    }
    tally.add(judge_bytes(alloc, image)?);
    Ok(tally)
}

/// The verdicts on an image from readers that give so many bytes a call at most, and that end or fail behind every so many bytes.
pub fn readers(
    alloc: Global,
    image: &[u8],
    stride: usize,
    step: usize,
    fails: bool,
) -> Result<Tally> {
    let mut tally = Tally::NONE;
    for place in 0..image.len().checked_div(stride).unwrap_or(0) {
        let front = place.saturating_mul(stride);
        let mut reader = FakeReader {
            rest: image.get(..front).unwrap_or(image),
            step,
            fails,
        };
        tally.add(judge(alloc, &mut reader)?);
    }
    Ok(tally)
}

/// Counts the verdict on an image with one bit turned over. The image is as before.
fn try_bit(alloc: Global, image: &mut [u8], bit: usize, tally: &mut Tally) -> Result<()> {
    turn(image, bit);
    tally.add(judge_bytes(alloc, image)?);
    turn(image, bit);
    Ok(())
}

/// Counts the verdict on an image with one bit turned over and the checksum made anew.
fn try_sealed(alloc: Global, image: &mut [u8], bit: usize, tally: &mut Tally) -> Result<()> {
    turn(image, bit);
    seal(image);
    tally.add(judge_bytes(alloc, image)?);
    turn(image, bit);
    seal(image);
    Ok(())
}

/// The verdicts on an image with each bit of its bytes from one offset to another turned over once.
pub fn all_bits(alloc: Global, image: &mut [u8], from: usize, to: usize) -> Result<Tally> {
    let mut tally = Tally::NONE;
    for bit in from.saturating_mul(8)..to.saturating_mul(8) {
        try_bit(alloc, image, bit, &mut tally)?;
    }
    Ok(tally)
}

/// Turns over the bits of the base block that its checksum is made of, one after another, and makes the checksum anew.
pub fn sealed_bits(alloc: Global, image: &mut [u8]) -> Result<Tally> {
    let mut tally = Tally::NONE;
    for bit in 0..508 * 8 {
        try_sealed(alloc, image, bit, &mut tally)?;
    }
    Ok(tally)
}

/// The verdicts on an image with each of so many bits turned over once, which are taken at random.
pub fn some_bits(alloc: Global, image: &mut [u8], count: usize) -> Result<Tally> {
    let mut tally = Tally::NONE;
    let mut chance = Chance::new(1);
    for _turn in 0..count {
        let bit = chance.below(image.len().saturating_mul(8));
        try_bit(alloc, image, bit, &mut tally)?;
    }
    Ok(tally)
}
