//! What a command gives, and the tool's commands.

use crate::command::CommandLine;
use crate::devices::{Input, Output};
use crate::given::Given;
use crate::host::Host;
use anyhow::{Context, Result};
use reg_files::{Device, file_tool};
use std::cell::Cell;
use std::fs;
use std::fs::File;
use std::rc::Rc;
use std::sync::Wait;
use std::thread::Threads;

/// What a command gave.
#[derive(Drop)]
pub struct Outcome {
    /// Its exit status.
    pub status: u8,
    /// What it wrote to standard output.
    pub output: Vec<u8>,
    /// What it wrote to standard error.
    pub errors: Vec<u8>,
    /// How often standard input was read.
    pub reads: usize,
    /// How often standard output was written.
    pub writes: usize,
    /// How many bytes that took.
    pub taken: usize,
}

/// A file that takes standard output, made anew.
fn opened(rt: &HostRuntime, path: &str) -> Result<File> {
    let mut options = File::options();
    options.write(true).create(true).truncate(true);
    Ok(
        options
            .open(rt, path)
            .context(format_args!("opening {path}"))?,
    )
}

/// Runs the tool by a command line, with the file that it names as standard input, or else what is given. Its threads are the crew's.
pub fn tool<T: Threads + Wait + Sync>(
    rt: &HostRuntime,
    crew: &T,
    command: &CommandLine,
    given: &Given,
) -> Result<Outcome> {
    let alloc = rt.alloc();
    let conditions = given.conditions;
    let bytes = match &command.input {
        Some(path) => fs::read(rt, path.as_str()).context("reading the input")?,
        None => given.input.as_str().as_bytes().to_vec(alloc)?,
    };
    let file = match &command.output {
        Some(path) => Some(opened(rt, path.as_str())?),
        None => None,
    };
    let passed = Rc::new(alloc, Cell::new(0))?;
    let mut input = Input {
        rest: &bytes,
        habits: conditions.reads,
        calls: 0,
        replies: conditions
            .in_turns
            .then_some(given.output.as_str().as_bytes()),
        due: 0,
        passed: passed.clone()?,
    };
    let mut output = Output {
        file,
        kept: Vec::new(alloc),
        taken: 0,
        habits: conditions.writes,
        calls: 0,
        passed,
    };
    let host = Host {
        rt,
        refused: conditions.refused,
        clock: conditions.clock,
    };
    let mut errors = Vec::new(alloc);
    let mut device = Device::new(&mut output);
    let words = command.words.clone()?;
    let status = file_tool(
        crew,
        alloc,
        &host,
        words,
        &mut input,
        &mut device,
        &mut errors,
    );
    Ok(Outcome {
        status,
        reads: input.calls,
        writes: output.calls,
        taken: output.taken,
        output: output.kept,
        errors,
    })
}
