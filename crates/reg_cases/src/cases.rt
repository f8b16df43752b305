//! A file of cases taken apart: cases, their rows and their steps. `data/cases/README.md` has the form.

use anyhow::{Result, bail};
use std::alloc::Global;

/// What stands before a case's title.
const TITLE: &str = "== ";

/// What stands before a row of a case, which is run once for each.
const ROW: &str = "each ";

/// What stands before a step's command line.
const STEP: &str = "$ ";

/// The line of a case that root doesn't run, of whom no rights are asked.
const RIGHTS: &str = "as a user with rights to be asked";

/// The line of a case that root alone runs.
const ROOT: &str = "as root";

/// Who runs a case.
#[derive(Clone, Copy)]
pub enum User {
    Anyone,
    /// Whoever is asked for rights.
    Plain,
    Root,
}

/// A command line of a case, and the lines behind it.
#[derive(Drop)]
pub struct Step<'a> {
    /// The number of its line in the file.
    pub number: usize,
    /// The command line.
    pub line: &'a str,
    /// What it is given and what it gives, as it is written.
    pub body: Vec<&'a str>,
}

/// Steps in a folder of their own, one after another.
#[derive(Drop)]
pub struct Case<'a> {
    /// The number of its title's line.
    pub number: usize,
    /// The rows that it is run for; once, where there are none.
    pub rows: Vec<&'a str>,
    /// Who runs it; it says nothing where it is run by somebody else.
    pub user: User,
    /// The steps.
    pub steps: Vec<Step<'a>>,
}

/// A case without steps.
fn begun(alloc: Global, number: usize) -> Case<'static> {
    Case {
        number,
        rows: Vec::new(alloc),
        user: User::Anyone,
        steps: Vec::new(alloc),
    }
}

/// Adds a line to a case. A line of no form belongs to the step before it.
fn add_line<'a>(alloc: Global, case: &mut Case<'a>, number: usize, line: &'a str) -> Result<()> {
    if let Some(row) = line.strip_prefix(ROW) {
        case.rows.push(row)?;
    } else if let Some(line) = line.strip_prefix(STEP) {
        case.steps.push(Step {
            number,
            line,
            body: Vec::new(alloc),
        })?;
    } else if line == RIGHTS {
        case.user = User::Plain;
    } else if line == ROOT {
        case.user = User::Root;
    } else if let Some(step) = case.steps.last_mut() {
        step.body.push(line)?;
    } else {
        bail!("line {number} belongs to no step");
    }
    Ok(())
}

/// The cases of a file. Empty lines and those that begin with `#` say nothing.
pub fn cases_in<'a>(alloc: Global, text: &'a str) -> Result<Vec<Case<'a>>> {
    let mut cases: Vec<Case<'a>> = Vec::new(alloc);
    let mut number = 0usize;
    for line in text.lines() {
        number = number.saturating_add(1);
        if line.is_empty() || line.starts_with('#') {
            continue;
        }
        if line.starts_with(TITLE) {
            cases.push(begun(alloc, number))?;
        } else if let Some(case) = cases.last_mut() {
            add_line(alloc, case, number, line)?;
        } else {
            bail!("line {number} belongs to no case");
        }
    }
    Ok(cases)
}
