//! Images and scripts that were changed at random, each by a seed of its own.
use crate::changes::{change_image, changed_script};
use crate::hives::{Subject, fresh_hive, run_on};
use crate::seeds::{SCRIPTS_LEN, images, script};
use crate::verdicts::{Tally, Verdict, judge_bytes, verdict_on};
use anyhow::Result;
use reg_fixtures::Chance;
use std::alloc::Global;

/// Every so many seeds have a script, too.
const SCRIPT_EVERY: u64 = 8;

/// The image of a seed.
fn image_of_seed(alloc: Global, good: &[Vec<u8>], chance: &mut Chance) -> Result<Vec<u8>> {
    let mut image = match good.get(chance.below(good.len())) {
        Some(image) => image.clone()?,
        None => Vec::new(alloc),
    };
    change_image(alloc, &mut image, chance)?;
    Ok(image)
}

/// One of the good scripts.
fn some_script(chance: &mut Chance) -> &'static [u8] {
    script(chance.below(SCRIPTS_LEN))
}

/// The script of a seed.
fn script_of_seed(alloc: Global, chance: &mut Chance) -> Result<Vec<u8>> {
    let mut changed = some_script(chance).to_vec(alloc)?;
    for _turn in 0..chance.below(12).saturating_add(1) {
        changed = changed_script(alloc, &changed, some_script(chance), chance)?;
    }
    Ok(changed)
}

/// The verdict on a script: on what it makes of an image that was changed, if that is loaded, or else of a fresh hive.
fn judge_script<H: Subject>(alloc: Global, image: &[u8], script: &[u8]) -> Result<Verdict> {
    let mut input = image;
    let mut hive = match H::loaded(alloc, &mut input) {
        Ok(hive) => hive,
        Err(_) => fresh_hive(alloc)?,
    };
    let _replies = run_on(alloc, &mut hive, script)?;
    verdict_on(alloc, &hive)
}

/// The verdicts on the images and scripts of so many seeds, beginning with one.
pub fn fuzz<H: Subject>(alloc: Global, first: u64, count: u64) -> Result<(Tally, Tally)> {
    let good = images::<H>(alloc)?;
    let mut of_images = Tally::NONE;
    let mut of_scripts = Tally::NONE;
    for number in 0..count {
        let seed = first.wrapping_add(number);
        let mut chance = Chance::new(seed);
        let image = image_of_seed(alloc, &good, &mut chance)?;
        of_images.add(judge_bytes(alloc, &image)?);
        if seed % SCRIPT_EVERY == 0 {
            let script = script_of_seed(alloc, &mut chance)?;
            of_scripts.add(judge_script::<H>(alloc, &image, &script)?);
        }
    }
    Ok((of_images, of_scripts))
}
