//! Scripts of one session that are run once more, by one worker: what is told must be the same.

use crate::cases::{Case, Step};
use crate::given::{Given, given_by};
use crate::steps::{fault_of_call, parts_of, told};
use anyhow::Result;
use std::alloc::{AllocError, Global};
use std::sync::Wait;
use std::thread::Threads;

/// The command line of a script.
const ALONE: &str = "regtool run";

/// The command line by which it is run once more.
const AGAIN: &str = "regtool run --workers 1";

/// Whether all lines of a step are of its input and its output.
fn are_texts(lines: &[&str]) -> bool {
    for line in lines {
        if !line.starts_with('|') && !line.starts_with('<') && !line.starts_with('>') {
            return false;
        }
    }
    true
}

/// Whether a script is of session 0 alone.
fn is_of_one(script: &str) -> bool {
    for line in script.lines() {
        if line.starts_with("as ") && line != "as 0" {
            return false;
        }
    }
    true
}

/// Whether a step is a script of session 0 alone that meets no fault, and each letter of whose replies is said.
fn is_plain(step: &Step<'_>, given: &Given) -> bool {
    step.line == ALONE
        && are_texts(&step.body)
        && is_of_one(given.input.as_str())
        && !given.output.as_str().contains("..")
}

/// Whether a reply is that of an accepted change, which is an entry.
fn is_entry(reply: &str) -> bool {
    reply == "0" || reply.starts_with("0 handle ") || reply.starts_with("0 watch ")
}

/// What one worker writes where a script alone is told these replies.
fn told_again(alloc: Global, replies: &str) -> Result<String, AllocError> {
    let mut entries = 0u32;
    for reply in replies.lines() {
        if is_entry(reply) {
            entries = entries.saturating_add(1);
        }
    }
    if replies.is_empty() {
        return format!(in alloc; "entries {entries}\ngathered\n");
    }
    format!(in alloc; "session 0\n{replies}entries {entries}\ngathered\n")
}

/// Runs the plain scripts of a case once more for a row: what was wrong, and how many there are.
fn run_row<T: Threads + Wait + Sync>(
    rt: &HostRuntime,
    crew: &T,
    case: &Case<'_>,
    row: &str,
) -> Result<(Vec<String>, u32)> {
    let alloc = rt.alloc();
    let parts = parts_of(alloc, row)?;
    let mut faults = Vec::new(alloc);
    let mut scripts = 0u32;
    for step in &case.steps {
        let mut given = given_by(alloc, &step.body, &parts)?;
        if !is_plain(step, &given) {
            continue;
        }
        given.output = told_again(alloc, given.output.as_str())?;
        scripts = scripts.saturating_add(1);
        if let Some(fault) = fault_of_call(rt, crew, AGAIN, &given)? {
            faults.push(told(rt, step, row, fault.as_str())?)?;
        }
    }
    Ok((faults, scripts))
}

/// Runs the plain scripts of a case once more, for each of its rows: what was wrong, and how many there are.
pub fn run_again<T: Threads + Wait + Sync>(
    rt: &HostRuntime,
    crew: &T,
    case: &Case<'_>,
) -> Result<(Vec<String>, u32)> {
    if case.rows.is_empty() {
        return run_row(rt, crew, case, "");
    }
    let mut faults = Vec::new(rt.alloc());
    let mut scripts = 0u32;
    for row in &case.rows {
        let (wrong, count) = run_row(rt, crew, case, row)?;
        scripts = scripts.saturating_add(count);
        for fault in wrong {
            faults.push(fault)?;
        }
    }
    Ok((faults, scripts))
}
