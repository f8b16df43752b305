//! The examples of README.md, of the manual and of the page on hive files, run one after another as they stand there.
//!
//! What an example prints and its exit status are compared: standard output, and before or behind it what came on standard error. A line is
//! printed for each that isn't as shown.

use crate::command::read_line;
use crate::example::{Example, example_in};
use crate::given::Given;
use crate::outcome::{Outcome, tool};
use crate::shown::are_as_shown;
use anyhow::{Context, Result};
use std::alloc::Global;
use std::fs;
use std::sync::Wait;
use std::thread::Threads;

/// Whether an example is as its page shows it: its status, and what it printed.
fn is_example_as_shown(example: &Example<'_>, status: u8, lines: &[&str]) -> bool {
    status == example.status
        && match &example.printed {
            Some(shown) => are_as_shown(shown, lines),
            None => true,
        }
}

/// What an example's command gives.
fn outcome_of<T: Threads + Wait + Sync>(
    rt: &HostRuntime,
    crew: &T,
    example: &Example<'_>,
) -> Result<Outcome> {
    let alloc = rt.alloc();
    let line = format!(in alloc; "regtool {}", example.line)?;
    tool(
        rt,
        crew,
        &read_line(alloc, line.as_str())?,
        &Given::nothing(alloc),
    )
}

/// A text behind another one.
fn joined(alloc: Global, first: &[u8], second: &[u8]) -> Result<String> {
    let mut bytes = first.to_vec(alloc)?;
    bytes.extend_from_slice(second)?;
    Ok(String::from_utf8_lossy(alloc, &bytes)?)
}

/// Runs an example, and answers what is wrong with it.
fn fault_of<T: Threads + Wait + Sync>(
    rt: &HostRuntime,
    crew: &T,
    example: &Example<'_>,
) -> Result<Option<String>> {
    let alloc = rt.alloc();
    let outcome = outcome_of(rt, crew, example)?;
    let text = joined(alloc, &outcome.output, &outcome.errors)?;
    let other = joined(alloc, &outcome.errors, &outcome.output)?;
    for printed in [text.as_str(), other.as_str()] {
        let lines: Vec<&str> = printed.lines().collect(alloc)?;
        if is_example_as_shown(example, outcome.status, &lines) {
            return Ok(None);
        }
    }
    Ok(Some(format!(in alloc; "{}: {}", outcome.status, text.as_str())?))
}

/// Runs the examples of a page, tells those that aren't as shown, and answers how many there were, and how many of these.
pub fn run_page<T: Threads + Wait + Sync>(
    rt: &HostRuntime,
    crew: &T,
    page: &str,
) -> Result<(u32, u32)> {
    let alloc = rt.alloc();
    let text = fs::read_to_string(rt, page).context(format_args!("reading {page}"))?;
    let lines: Vec<&str> = text.as_str().lines().collect(alloc)?;
    let (mut examples, mut wrong) = (0u32, 0u32);
    for at in 0..lines.len() {
        let Some(example) = example_in(alloc, &lines[at..])? else {
            continue;
        };
        examples = examples.saturating_add(1);
        if let Some(fault) = fault_of(rt, crew, &example)? {
            println!(rt; "{page}: {}: {}", example.line, fault.as_str())?;
            wrong = wrong.saturating_add(1);
        }
    }
    Ok((examples, wrong))
}
