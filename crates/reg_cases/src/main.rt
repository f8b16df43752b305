//! Tests that are texts: the cases of `data/cases`, and the examples of README.md, of the manual and of the page on hive files, as they
//! stand there.
//!
//! `data/` has the cases, and copies of the pages and of the files that they name; `data/cases/README.md` says how a case is written. All
//! run on files of the system, by `file_tool` of reg_files; a script of one session is run once more, by one worker. A line tells each
//! that isn't as wanted, and at the end stands how many there were. No clause says what a file holds, so these functions are proved to be
//! safe, and what they print is compared by the gate.
#![tactic(auto)]

mod bins;
mod cases;
mod command;
mod conditions;
mod devices;
mod example;
mod given;
mod host;
mod outcome;
mod pages;
mod repeats;
mod shown;
mod steps;
mod themes;
mod verbs;
mod workers;

use crate::pages::run_page;
use crate::themes::run_themes;
use anyhow::{Result, bail};

/// The pages whose examples are run.
const PAGES: [&str; 3] = ["README.md", "TOOL.md", "HIVES.md"];

fn main(rt: HostRuntime) -> Result<()> {
    let mut wrong = run_themes(&rt, &rt)?;
    for page in PAGES {
        let (examples, others) = run_page(&rt, &rt, page)?;
        println!(rt; "{page}: {examples} examples, {others} not as shown")?;
        wrong = wrong.saturating_add(others);
        if examples == 0 {
            bail!("{page} has no examples");
        }
    }
    if wrong > 0 {
        bail!("{wrong} cases and examples aren't as they stand there");
    }
    Ok(())
}
