//! The steps of a case, run one after another in a folder of their own.

use crate::cases::{Case, Step, User};
use crate::command::read_line;
use crate::given::{Given, given_by};
use crate::outcome::{Outcome, tool};
use crate::repeats::{filled, written_out};
use crate::shown::difference;
use crate::verbs::{Scene, perform};
use anyhow::Result;
use std::alloc::Global;
use std::fs::{File, Permissions};
use std::os::unix::fs::PermissionsExt;
use std::sync::Wait;
use std::thread::Threads;
use std::{env, fs};

/// The folder of the case that runs.
const FOLDER: &str = "case";

/// What stands between the parts of a row.
const BETWEEN: &str = " | ";

/// What a command line gives.
fn outcome_of<T: Threads + Wait + Sync>(
    rt: &HostRuntime,
    crew: &T,
    line: &str,
    given: &Given,
    scene: &mut Scene,
) -> Result<Outcome> {
    let command = read_line(rt.alloc(), line)?;
    if let [name, ..] = command.words.as_slice()
        && name.as_str() == "regtool"
    {
        let outcome = tool(rt, crew, &command, given)?;
        scene.note(&outcome);
        return Ok(outcome);
    }
    let text = perform(rt, &command.words, given, scene)?;
    Ok(Outcome {
        status: 0,
        output: text.into_bytes(),
        errors: Vec::new(rt.alloc()),
        reads: 0,
        writes: 0,
        taken: 0,
    })
}

/// Whether an output of so many bytes is the front of what is wanted that its device takes.
fn is_front(given: &Given, bytes: usize, output: &str) -> bool {
    let wanted = given.output.as_str();
    let room = given.conditions.writes.room;
    let is_all = room == usize::MAX || bytes == room.min(wanted.len());
    given.conditions.is_front && is_all && wanted.starts_with(output)
}

/// How what came differs from what was wanted; `None` where it doesn't.
fn fault_in(rt: &HostRuntime, given: &Given, outcome: &Outcome) -> Result<Option<String>> {
    let alloc = rt.alloc();
    let output = String::from_utf8_lossy(alloc, &outcome.output)?;
    let errors = String::from_utf8_lossy(alloc, &outcome.errors)?;
    let wanted = given.errors.as_str();
    if let Some(fault) = difference(alloc, "standard error", wanted, errors.as_str())? {
        return Ok(Some(fault));
    }
    let wanted = given.output.as_str();
    if !is_front(given, outcome.output.len(), output.as_str())
        && let Some(fault) = difference(alloc, "standard output", wanted, output.as_str())?
    {
        return Ok(Some(fault));
    }
    if outcome.status == given.status {
        return Ok(None);
    }
    let (status, came) = (given.status, outcome.status);
    Ok(Some(format!(in alloc; "wanted status {status}, came {came}")?))
}

/// What is wrong with a call of the tool; `None` where all is as wanted.
pub fn fault_of_call<T: Threads + Wait + Sync>(
    rt: &HostRuntime,
    crew: &T,
    line: &str,
    given: &Given,
) -> Result<Option<String>> {
    let command = read_line(rt.alloc(), line)?;
    let outcome = tool(rt, crew, &command, given)?;
    fault_in(rt, given, &outcome)
}

/// What is wrong with a step; `None` where all is as wanted.
fn fault_of_step<T: Threads + Wait + Sync>(
    rt: &HostRuntime,
    crew: &T,
    step: &Step<'_>,
    parts: &[&str],
    scene: &mut Scene,
) -> Result<Option<String>> {
    let alloc = rt.alloc();
    let given = given_by(alloc, &step.body, parts)?;
    let line = written_out(alloc, filled(alloc, step.line, parts)?.as_str())?;
    let outcome = outcome_of(rt, crew, line.as_str(), &given, scene)?;
    fault_in(rt, &given, &outcome)
}

/// A fault with its step: the line's number, the command line, and the row if there is one.
pub fn told(rt: &HostRuntime, step: &Step<'_>, row: &str, fault: &str) -> Result<String> {
    let (number, line) = (step.number, step.line);
    if row.is_empty() {
        return Ok(format!(in rt.alloc(); "{number}: {line}: {fault}")?);
    }
    Ok(format!(in rt.alloc(); "{number}: {line} ({row}): {fault}")?)
}

/// The parts of a row; the empty row has none.
pub fn parts_of<'a>(alloc: Global, row: &'a str) -> Result<Vec<&'a str>> {
    if row.is_empty() {
        return Ok(Vec::new(alloc));
    }
    Ok(row.split(BETWEEN).collect(alloc)?)
}

/// Runs the steps of a case up to the first at which something is wrong, and tells that.
fn fault_of_steps<T: Threads + Wait + Sync>(
    rt: &HostRuntime,
    crew: &T,
    case: &Case<'_>,
    row: &str,
) -> Result<Option<String>> {
    let alloc = rt.alloc();
    let mut scene = Scene::new(alloc);
    let parts = parts_of(alloc, row)?;
    for step in &case.steps {
        match fault_of_step(rt, crew, step, &parts, &mut scene) {
            Ok(None) => {}
            Ok(Some(fault)) => return Ok(Some(told(rt, step, row, fault.as_str())?)),
            Err(error) => {
                let fault = format!(in alloc; "{error:#}")?;
                return Ok(Some(told(rt, step, row, fault.as_str())?));
            }
        }
    }
    Ok(None)
}

/// Runs a case for a row in a new folder, which is taken away then, and tells what is wrong, if anything is.
fn fault_of_row<T: Threads + Wait + Sync>(
    rt: &HostRuntime,
    crew: &T,
    case: &Case<'_>,
    row: &str,
) -> Result<Option<String>> {
    fs::create_dir(rt, FOLDER)?;
    env::set_current_dir(rt, FOLDER)?;
    let fault = fault_of_steps(rt, crew, case, row);
    env::set_current_dir(rt, "..")?;
    fs::set_permissions(rt, FOLDER, Permissions::from_mode(0o755))?;
    fs::remove_dir_all(rt, FOLDER)?;
    fault
}

/// Whether a file without rights can't be read, as by root, of whom the system asks for none.
fn are_rights_asked(rt: &HostRuntime) -> Result<bool> {
    let path = "rights";
    fs::write(rt, path, b"")?;
    fs::set_permissions(rt, path, Permissions::from_mode(0))?;
    let is_opened = File::open(rt, path).is_ok();
    fs::remove_file(rt, path)?;
    Ok(!is_opened)
}

/// Runs a case once for each row, unless it isn't to be run: what was wrong, and how many rows there are.
fn run_rows<T: Threads + Wait + Sync>(
    rt: &HostRuntime,
    crew: &T,
    case: &Case<'_>,
    rows: &[&str],
    is_run: bool,
) -> Result<(Vec<String>, u32)> {
    let mut faults = Vec::new(rt.alloc());
    let mut runs = 0u32;
    for row in rows {
        runs = runs.saturating_add(1);
        if !is_run {
            continue;
        }
        if let Some(fault) = fault_of_row(rt, crew, case, row)? {
            faults.push(fault)?;
        }
    }
    Ok((faults, runs))
}

/// Runs a case, once for each of its rows, or once where it has none: what was wrong, and how often it ran. A case that isn't for whoever
/// runs it counts, too.
pub fn run_case<T: Threads + Wait + Sync>(
    rt: &HostRuntime,
    crew: &T,
    case: &Case<'_>,
) -> Result<(Vec<String>, u32)> {
    let is_run = match case.user {
        User::Anyone => true,
        User::Root => !are_rights_asked(rt)?,
        User::Plain => are_rights_asked(rt)?,
    };
    if case.rows.is_empty() {
        return run_rows(rt, crew, case, &[""], is_run);
    }
    run_rows(rt, crew, case, &case.rows, is_run)
}
