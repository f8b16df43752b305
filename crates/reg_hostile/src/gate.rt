//! The run of the gate: it is short, and tells the same each time.
use crate::fuzz::fuzz;
use crate::hives::scripted;
use crate::rows::run_rows;
use crate::seeds::{RECORDS_END, every_record, script};
use crate::sweeps::{all_bits, fronts, readers, sealed_bits, some_bits};
use crate::verdicts::Tally;
use crate::ways::{same_bits, sizes_by_ways};
use anyhow::Result;
use reg_fixtures::PlainHive;
use std::alloc::Global;

/// How many bits of the image with every record are turned over beside those of its records.
const BITS: usize = 10_000;

/// How many bytes of the bins of an image of ours have their bits turned over: its records, and free bytes behind them.
const OWN_BYTES: usize = 1_024;

/// Behind every so many bytes of a larger image a reader stops.
const STRIDE: usize = 37;

/// How many seeds are tried.
const SEEDS: u64 = 20_000;

/// Prints verdicts.
fn tell(rt: &impl Print, what: &str, tally: Tally) -> Result<()> {
    println!(rt; "{what}: {tally}")?;
    Ok(())
}

/// Fronts and bits of the image of a fresh hive, which is then as before.
fn sweep_fresh(rt: &impl Print, alloc: Global, image: &mut [u8]) -> Result<()> {
    let len = image.len();
    tell(rt, "fresh hive, fronts", fronts(alloc, image)?)?;
    tell(rt, "fresh hive, bits", all_bits(alloc, image, 0, len)?)?;
    tell(
        rt,
        "fresh hive, bits with a checksum",
        sealed_bits(alloc, image)?,
    )
}

/// Fronts and bits of the image with every record, which is then as before.
fn sweep_records(rt: &impl Print, alloc: Global, image: &mut [u8]) -> Result<()> {
    tell(rt, "every record, fronts", fronts(alloc, image)?)?;
    tell(
        rt,
        "every record, bits of records",
        all_bits(alloc, image, 4096, RECORDS_END)?,
    )?;
    tell(rt, "every record, bits", some_bits(alloc, image, BITS)?)
}

/// Of how many bits of the records of an image of ours the same is told by either way.
fn same_of_own(alloc: Global) -> Result<usize> {
    let mut image = scripted::<PlainHive>(alloc, script(0))?;
    same_bits::<PlainHive>(alloc, &mut image, 4096, 4096 + OWN_BYTES)
}

/// Images of ours by either way, their bins taken as they stand or built anew, with bits of their records turned over.
fn sweep_own(rt: &impl Print, alloc: Global) -> Result<()> {
    let (taken, anew) = sizes_by_ways::<PlainHive>(alloc)?;
    println!(rt; "bins with free cells: {taken} bytes taken, {anew} built anew")?;
    let (same, bits) = (same_of_own(alloc)?, OWN_BYTES * 8);
    println!(rt; "own records, bits: {same} of {bits} as built anew")?;
    Ok(())
}

/// Readers of an image that end early or fail.
fn fail_readers(
    rt: &impl Print,
    alloc: Global,
    of: &str,
    image: &[u8],
    stride: usize,
) -> Result<()> {
    for (what, step, fails) in [
        ("give nothing", 0, false),
        ("give one byte a call and end", 1, false),
        ("give all and end", usize::MAX, false),
        ("give one byte a call and fail", 1, true),
        ("give all and fail", usize::MAX, true),
    ] {
        let tally = readers(alloc, image, stride, step, fails)?;
        println!(rt; "readers of {of} that {what}: {tally}")?;
    }
    Ok(())
}

/// Images and scripts at random.
fn try_seeds(rt: &impl Print, alloc: Global) -> Result<()> {
    let (of_images, of_scripts) = fuzz::<PlainHive>(alloc, 1, SEEDS)?;
    println!(rt; "images of {SEEDS} seeds: {of_images}")?;
    println!(rt; "scripts of {SEEDS} seeds: {of_scripts}")?;
    Ok(())
}

/// What the gate runs with the image of a fresh hive and that with every record. Of the first a reader stops at each place.
fn run_with(rt: &impl Print, alloc: Global, fresh: &mut [u8], records: &mut [u8]) -> Result<()> {
    sweep_fresh(rt, alloc, fresh)?;
    sweep_records(rt, alloc, records)?;
    sweep_own(rt, alloc)?;
    fail_readers(rt, alloc, "a fresh hive", fresh, 1)?;
    fail_readers(rt, alloc, "every record", records, STRIDE)
}

/// Runs all that the gate runs.
pub fn run(rt: &impl Print, alloc: Global) -> Result<()> {
    let mut fresh = scripted::<PlainHive>(alloc, b"")?;
    let mut records = every_record(alloc)?;
    run_with(rt, alloc, &mut fresh, &mut records)?;
    try_seeds(rt, alloc)?;
    run_rows::<PlainHive>(rt, alloc)
}
