//! Input at random and hostile input for the libraries: images that were changed, readers that fail, scripts at random, and refused
//! memory.
//!
//! Without an argument it runs for some seconds and prints counts, which are the same on each run. `reg_hostile fuzz SEED COUNT`
//! tries the images and scripts of so many seeds, `bits` each bit of an image, and `rows` runs rows of scripts on a machine that may
//! refuse memory; `fuzz`, `hostile` and `refuse-memory` of `tools/` call these. It has no contract of its own: that none of this makes a
//! fault or a wrong tree is what the contracts of the libraries say. `Verdict` is what became of an image.
#![tactic(auto)]

mod changes;
mod fuzz;
mod gate;
mod hives;
mod rows;
mod seeds;
mod sweeps;
mod verdicts;
mod ways;

use crate::seeds::every_record;
use anyhow::Result;
use reg_fixtures::PlainHive;
use std::alloc::Global;
use std::env;
use std::process::ExitCode;

/// What is told where the words ask for nothing.
const USAGE: &str = "usage: reg_hostile [fuzz SEED COUNT | bits | rows]";

/// Prints the verdicts on the images and scripts of seeds.
fn print_fuzz(rt: &impl Print, alloc: Global, first: u64, count: u64) -> Result<()> {
    let (of_images, of_scripts) = fuzz::fuzz::<PlainHive>(alloc, first, count)?;
    println!(rt; "images: {of_images}")?;
    println!(rt; "scripts: {of_scripts}")?;
    Ok(())
}

/// Prints the verdicts on each bit of the image with every record.
fn print_bits(rt: &impl Print, alloc: Global) -> Result<()> {
    let mut image = every_record(alloc)?;
    let tally = sweeps::all_bits(alloc, &mut image, 0, 24_576)?;
    println!(rt; "bits: {tally}")?;
    Ok(())
}

/// Prints of how many bits of the bins of an image of ours with every record the same is told by either way.
fn print_own_bits(rt: &impl Print, alloc: Global) -> Result<()> {
    let mut own = ways::own_records(alloc)?;
    let len = own.len();
    let same = ways::same_bits::<PlainHive>(alloc, &mut own, 4096, len)?;
    let bits = len.saturating_sub(4096).saturating_mul(8);
    println!(rt; "own bits: {same} of {bits} as built anew")?;
    Ok(())
}

/// What is to be done.
#[derive(Clone, Copy)]
enum Job {
    Gate,
    Bits,
    Rows,
    Fuzz { first: u64, count: u64 },
}

/// What the words behind the program's name ask for, if they ask for anything.
fn job_in(words: &[&str]) -> Option<Job> {
    match words {
        [] => Some(Job::Gate),
        ["bits"] => Some(Job::Bits),
        ["rows"] => Some(Job::Rows),
        ["fuzz", first, count] => Some(Job::Fuzz {
            first: first.parse::<u64>().ok()?,
            count: count.parse::<u64>().ok()?,
        }),
        _ => None,
    }
}

fn perform(rt: &impl Print, alloc: Global, job: Job) -> Result<()> {
    match job {
        Job::Gate => gate::run(rt, alloc),
        Job::Bits => {
            print_bits(rt, alloc)?;
            print_own_bits(rt, alloc)
        }
        Job::Rows => rows::run_rows::<PlainHive>(rt, alloc),
        Job::Fuzz { first, count } => print_fuzz(rt, alloc, first, count),
    }
}

/// What these words, behind the first, ask for.
fn job_of(alloc: Global, given: &[String]) -> Result<Option<Job>> {
    let mut words = Vec::new(alloc);
    for word in given.iter().skip(1) {
        words.push(word.as_str())?;
    }
    Ok(job_in(&words))
}

fn main(rt: HostRuntime) -> Result<ExitCode> {
    let alloc = rt.alloc();
    let given: Vec<String> = env::args(&rt)?.collect(alloc)?;
    match job_of(alloc, &given)? {
        Some(job) => {
            perform(&rt, alloc, job)?;
            Ok(ExitCode::SUCCESS)
        }
        None => {
            eprintln!(rt; "{USAGE}")?;
            Ok(ExitCode::from(2))
        }
    }
}
