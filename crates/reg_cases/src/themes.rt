//! The themes: a folder of files of cases each.

use crate::cases::cases_in;
use crate::steps::run_case;
use crate::workers::run_again;
use anyhow::{Context, Result};
use std::fs;
use std::sync::Wait;
use std::thread::Threads;

/// The folder of the themes.
const THEMES: &str = "cases";

/// How the name of a file of cases ends.
const ENDING: &str = ".txt";

/// How many cases there were, and how many of them weren't as wanted.
#[derive(Clone, Copy)]
pub struct Counts {
    /// How many cases there were.
    pub cases: u32,
    /// How many weren't as wanted.
    pub wrong: u32,
    /// How many of their scripts were run once more, by one worker.
    pub scripts: u32,
    /// How many of these weren't as wanted.
    pub astray: u32,
}

impl Counts {
    /// Nothing counted yet.
    const NONE: Counts = Counts {
        cases: 0,
        wrong: 0,
        scripts: 0,
        astray: 0,
    };

    /// Adds those of a part.
    fn add(&mut self, part: Counts) {
        self.cases = self.cases.saturating_add(part.cases);
        self.wrong = self.wrong.saturating_add(part.wrong);
        self.scripts = self.scripts.saturating_add(part.scripts);
        self.astray = self.astray.saturating_add(part.astray);
    }
}

/// Tells faults, a line each, behind the file's name, and answers how many there are.
fn tell(rt: &HostRuntime, path: &str, faults: &[String]) -> Result<u32> {
    let mut count = 0u32;
    for fault in faults {
        println!(rt; "{path}:{}", fault.as_str())?;
        count = count.saturating_add(1);
    }
    Ok(count)
}

/// The paths of what is in a folder, in order.
fn paths_in(rt: &HostRuntime, folder: &str) -> Result<Vec<String>> {
    let alloc = rt.alloc();
    let mut paths = Vec::new(alloc);
    for entry in fs::read_dir(rt, folder).context(format_args!("reading {folder}"))? {
        let entry = entry?;
        let name = entry.file_name().to_string(alloc)?;
        paths.push(format!(in alloc; "{folder}/{}", name.as_str())?)?;
    }
    paths.sort()?;
    Ok(paths)
}

/// Runs the cases of a file, and tells what is wrong, a line each.
fn run_file<T: Threads + Wait + Sync>(rt: &HostRuntime, crew: &T, path: &str) -> Result<Counts> {
    let alloc = rt.alloc();
    let text = fs::read_to_string(rt, path).context(format_args!("reading {path}"))?;
    let cases = cases_in(alloc, text.as_str()).context(format_args!("reading {path}"))?;
    let mut counts = Counts::NONE;
    for case in &cases {
        let (faults, runs) = run_case(rt, crew, case).context(format_args!(
            "{path}, the case of line {}",
            case.number
        ))?;
        let (others, scripts) = run_again(rt, crew, case).context(format_args!(
            "{path}, the case of line {} by one worker",
            case.number
        ))?;
        counts.add(Counts {
            cases: runs,
            wrong: tell(rt, path, &faults)?,
            scripts,
            astray: tell(rt, path, &others)?,
        });
    }
    Ok(counts)
}

/// Runs the cases of a theme.
fn run_theme<T: Threads + Wait + Sync>(rt: &HostRuntime, crew: &T, folder: &str) -> Result<Counts> {
    let mut counts = Counts::NONE;
    for path in &paths_in(rt, folder)? {
        if path.as_str().ends_with(ENDING) {
            counts.add(run_file(rt, crew, path.as_str())?);
        }
    }
    Ok(counts)
}

/// Runs the cases of all themes, tells how many each has and how many scripts ran once more, and answers how many weren't as wanted.
pub fn run_themes<T: Threads + Wait + Sync>(rt: &HostRuntime, crew: &T) -> Result<u32> {
    let mut all = Counts::NONE;
    for path in &paths_in(rt, THEMES)? {
        if path.as_str().ends_with(".md") {
            continue;
        }
        let counts = run_theme(rt, crew, path.as_str())?;
        println!(rt;
            "{}: {} cases, {} not as wanted",
            path.as_str(),
            counts.cases,
            counts.wrong
        )?;
        all.add(counts);
    }
    println!(rt;
        "workers: {} scripts again, {} not as wanted",
        all.scripts, all.astray
    )?;
    Ok(all.wrong.saturating_add(all.astray))
}
