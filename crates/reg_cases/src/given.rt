//! What a step is given and what is wanted of it, read off its lines.

use crate::conditions::Conditions;
use crate::repeats::{Range, filled, numbered, repeated_line, written_out};
use anyhow::{Result, bail};
use std::alloc::{AllocError, Global};

/// What stands before the exit status that is wanted.
const STATUS: &str = "status ";

/// What stands between a line of a script and its reply.
const REPLY: &str = " -> ";

/// What a line of a step says.
#[derive(Clone, Copy)]
enum Kind {
    /// A line of standard input, and the line of standard output that answers it, if one does.
    Call,
    /// A line of standard input.
    Input,
    /// A line of standard output.
    Output,
    /// A line of standard error.
    Errors,
}

/// What a step is given, and what is wanted of it.
#[derive(Drop)]
pub struct Given {
    /// Standard input.
    pub input: String,
    /// What is to come on standard output.
    pub output: String,
    /// What is to come on standard error.
    pub errors: String,
    /// The exit status that is wanted.
    pub status: u8,
    /// What stands between the command and the system.
    pub conditions: Conditions,
}

/// The kind of a line, and its text.
fn kind_of(line: &str) -> Option<(Kind, &str)> {
    for (kind, mark) in [
        (Kind::Call, '|'),
        (Kind::Input, '<'),
        (Kind::Output, '>'),
        (Kind::Errors, '!'),
    ] {
        if let Some(rest) = line.strip_prefix(mark) {
            return Some((kind, rest.strip_prefix(' ').unwrap_or(rest)));
        }
    }
    None
}

/// Appends a line so many times.
fn push_line(alloc: Global, to: &mut String, line: &str, times: usize) -> Result<(), AllocError> {
    let ended = format!(in alloc; "{line}\n")?;
    to.push_str(ended.as_str().repeat(alloc, times)?.as_str())
}

impl Given {
    /// Nothing given, and nothing wanted.
    pub fn nothing(alloc: Global) -> Given {
        Given {
            input: String::new(alloc),
            output: String::new(alloc),
            errors: String::new(alloc),
            status: 0,
            conditions: Conditions::NONE,
        }
    }

    /// Adds a line that is written out, so many times.
    fn add(
        &mut self,
        alloc: Global,
        kind: Kind,
        line: &str,
        times: usize,
    ) -> Result<(), AllocError> {
        match kind {
            Kind::Input => push_line(alloc, &mut self.input, line, times),
            Kind::Output => push_line(alloc, &mut self.output, line, times),
            Kind::Errors => push_line(alloc, &mut self.errors, line, times),
            Kind::Call => match line.split_once(REPLY) {
                Some((call, reply)) => {
                    push_line(alloc, &mut self.input, call, times)?;
                    push_line(alloc, &mut self.output, reply, times)
                }
                None => push_line(alloc, &mut self.input, line, times),
            },
        }
    }

    /// Adds a line for each number of a range.
    fn add_range(
        &mut self,
        alloc: Global,
        kind: Kind,
        range: Range,
        pattern: &str,
    ) -> Result<(), AllocError> {
        if !pattern.contains('#') {
            let line = written_out(alloc, pattern)?;
            return self.add(alloc, kind, line.as_str(), range.count());
        }
        for number in range.first..=range.last {
            let line = numbered(alloc, pattern, number)?;
            self.add(alloc, kind, written_out(alloc, line.as_str())?.as_str(), 1)?;
        }
        Ok(())
    }

    /// Adds a line as often as it is repeated.
    fn add_repeated(&mut self, alloc: Global, kind: Kind, line: &str) -> Result<(), AllocError> {
        match repeated_line(line) {
            Some((range, pattern)) => self.add_range(alloc, kind, range, pattern),
            None => self.add(alloc, kind, written_out(alloc, line)?.as_str(), 1),
        }
    }

    /// Adds a line of a step.
    fn add_line(&mut self, alloc: Global, line: &str) -> Result<()> {
        if let Some((kind, text)) = kind_of(line) {
            self.add_repeated(alloc, kind, text)?;
        } else if let Some(status) = line.strip_prefix(STATUS) {
            self.status = status.parse::<u8>()?;
        } else {
            let words: Vec<&str> = line.split(' ').collect(alloc)?;
            if self.conditions.add(&words).is_none() {
                bail!("a line of no form: {line}");
            }
        }
        Ok(())
    }
}

/// What the lines of a step say, with the parts of a row.
pub fn given_by(alloc: Global, body: &[&str], parts: &[&str]) -> Result<Given> {
    let mut given = Given::nothing(alloc);
    for line in body {
        if parts.is_empty() {
            given.add_line(alloc, line)?;
        } else {
            given.add_line(alloc, filled(alloc, line, parts)?.as_str())?;
        }
    }
    Ok(given)
}
