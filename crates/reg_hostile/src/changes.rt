//! Changes of images and scripts, at random.
ghost use Rattle.std.specs.Prelude.{◌≡◌, length};

use crate::sweeps::{put, seal, turn};
use anyhow::Result;
use reg_fixtures::Chance;
use std::alloc::Global;

/// Numbers that a reader may trip over.
const NUMBERS: [u32; 16] = [
    0,
    1,
    2,
    4,
    32,
    0x28,
    254,
    501,
    4096,
    16_345,
    65_535,
    0x7FFF_FFFF,
    0x8000_0000,
    0x8000_0005,
    0xFFFF_FFF8,
    0xFFFF_FFFF,
];

/// The letters of all records.
const LETTERS: [[u8; 2]; 8] = [
    *b"nk", *b"vk", *b"sk", *b"db", *b"lf", *b"lh", *b"li", *b"ri",
];

/// The bytes that tell most in a script.
const TELLING: &[u8; 24] = b"0123456789=\\x%- \n#abAZz\0";

/// Where an image is changed: mostly in the bins, else in the fields of the base block; a multiple of `step`.
fn place(image: &[u8], step: usize, chance: &mut Chance) -> usize {
    let at = match chance.below(8) {
        0 => chance.below(64),
        1 | 2 => 4096usize.saturating_add(chance.below(256)),
        _ => 4096usize.saturating_add(chance.below(image.len().saturating_sub(4096))),
    };
    at.checked_rem(step)
        .map_or(at, |past| at.saturating_sub(past))
}

/// The number of 32 bits at an offset of an image, 0 past its end.
fn number_at(image: &[u8], at: usize) -> u32 {
    let mut bytes = [0; 4];
    for (slot, byte) in bytes.iter_mut().zip(image.iter().skip(at)) {
        *slot = *byte;
    }
    u32::from_le_bytes(bytes)
}

/// A number to write into an image: mostly one that stands there already, or one beside it.
fn number_for(image: &[u8], chance: &mut Chance) -> u32 {
    let there = number_at(image, place(image, 4, chance));
    match chance.below(6) {
        0 => NUMBERS.get(chance.below(16)).copied().unwrap_or(0),
        1 => there.wrapping_add(8),
        2 => there.wrapping_sub(8),
        3 => chance.word(),
        _ => there,
    }
}

/// Writes over some bytes of an image.
fn write_once(image: &mut [u8], chance: &mut Chance)
    ensures { length image.new ≡ length image.old }
{
    match chance.below(6) {
        0 => turn(
            image,
            place(image, 1, chance)
                .saturating_mul(8)
                .saturating_add(chance.below(8)),
        ),
        1 => {
            let byte = chance.word().to_le_bytes();
            put(image, place(image, 1, chance), &byte[..1]);
        }
        2 => {
            let number = number_for(image, chance).to_le_bytes();
            put(image, place(image, 2, chance), &number[..2]);
        }
        3 => {
            let letters = LETTERS.get(chance.below(8)).copied().unwrap_or(*b"nk");
            put(image, place(image, 8, chance).saturating_add(4), &letters);
        }
        _ => {
            let number = number_for(image, chance).to_le_bytes();
            put(image, place(image, 4, chance), &number);
        }
    }
}

/// Copies some bytes of an image to another place.
fn copy_once(alloc: Global, image: &mut [u8], chance: &mut Chance) -> Result<()> {
    let from = place(image, 8, chance);
    let len = chance.below(128);
    let piece = image
        .iter()
        .skip(from)
        .take(len)
        .copied()
        .collect::<Vec<u8>>(alloc)?;
    put(image, place(image, 8, chance), &piece);
    Ok(())
}

/// Changes an image in one to six places, seldom cuts it, and mostly makes its checksum anew.
pub fn change_image(alloc: Global, image: &mut Vec<u8>, chance: &mut Chance) -> Result<()> {
    for _turn in 0..chance.below(6).saturating_add(1) {
        if chance.below(8) == 0 {
            copy_once(alloc, image, chance)?;
        } else {
            write_once(image, chance);
        }
    }
    if chance.below(64) == 0 {
        let len = chance.below(image.len());
        image.truncate(len);
    }
    if chance.below(16) != 0 {
        seal(image);
    }
    Ok(())
}

/// A text in which the bytes from one place to another gave way to others.
fn spliced(alloc: Global, text: &[u8], from: usize, to: usize, new: &[u8]) -> Result<Vec<u8>> {
    let mut out = Vec::new(alloc);
    out.extend_from_slice(text.get(..from).unwrap_or(text))?;
    out.extend_from_slice(new)?;
    out.extend_from_slice(text.get(to..).unwrap_or(b""))?;
    Ok(out)
}

/// Where the line begins in which a byte stands.
fn line_start(text: &[u8], at: usize) -> usize {
    let front = text.get(..at).unwrap_or(text);
    match front.iter().rposition(|byte| *byte == b'\n') {
        Some(feed) => feed.saturating_add(1),
        None => 0,
    }
}

/// Where the line ends in which a byte stands, behind its LF.
fn line_end(text: &[u8], at: usize) -> usize {
    let rest = text.get(at..).unwrap_or(b"");
    match rest.iter().position(|byte| *byte == b'\n') {
        Some(feed) => at.saturating_add(feed).saturating_add(1),
        None => text.len(),
    }
}

/// A line of a script, taken at random.
fn some_line<'a>(script: &'a [u8], chance: &mut Chance) -> &'a [u8] {
    let at = chance.below(script.len());
    let rest = script.get(line_start(script, at)..).unwrap_or(b"");
    rest.get(..line_end(rest, 0)).unwrap_or(rest)
}

/// A script in which a byte or a line was changed; lines are of another one.
pub fn changed_script(
    alloc: Global,
    script: &[u8],
    other: &[u8],
    chance: &mut Chance,
) -> Result<Vec<u8>> {
    let at = chance.below(script.len());
    let next = at.saturating_add(1);
    let start = line_start(script, at);
    let end = line_end(script, at);
    match chance.below(6) {
        0 => spliced(alloc, script, at, next, &[chance.byte_of(TELLING)]),
        1 => spliced(alloc, script, at, at, &[chance.byte_of(TELLING)]),
        2 => spliced(alloc, script, at, next, &chance.word().to_le_bytes()[..1]),
        3 => spliced(alloc, script, start, end, b""),
        4 => spliced(alloc, script, start, end, some_line(other, chance)),
        _ => spliced(alloc, script, start, start, some_line(other, chance)),
    }
}
