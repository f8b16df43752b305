//! An example of a page: a command line, what it prints, and its exit status.
//!
//! Another status than 0 is shown as a shell is asked for it, by `$ echo $?` in the line behind what is printed.

use std::alloc::{AllocError, Global};

/// What stands before each line of an example.
const INDENT: &str = "    ";

/// What stands before whatever a shell is given.
const SHELL: &str = "    $ ";

/// What stands before a command line whose output follows it.
const PROMPT: &str = "    $ ./regtool ";

/// What asks for the status of the command line before it.
const STATUS: &str = "    $ echo $?";

/// What stands before one of which no output is shown.
const BARE: &str = "    ./regtool ";

/// A command line of a page.
#[derive(Drop)]
pub struct Example<'a> {
    /// The words behind the program's name, as they are written.
    pub line: &'a str,
    /// What it prints, line by line; `None` where nothing is said of that.
    pub printed: Option<Vec<&'a str>>,
    /// Its exit status: 0 where none is shown.
    pub status: u8,
}

/// What a line that isn't for a shell prints of an example.
fn printed_line(line: &str) -> Option<&str> {
    if line.starts_with(SHELL) {
        return None;
    }
    line.strip_prefix(INDENT)
}

/// The lines printed from the front of a page's lines on.
fn printed_in<'a>(alloc: Global, lines: &[&'a str]) -> Result<Vec<&'a str>, AllocError> {
    let mut printed = Vec::new(alloc);
    for line in lines {
        match printed_line(line) {
            Some(text) => printed.push(text)?,
            None => return Ok(printed),
        }
    }
    Ok(printed)
}

/// The status that lines show which begin with the question for it.
fn shown_status(lines: &[&str]) -> Option<u8> {
    let (question, behind) = lines.split_first()?;
    if *question != STATUS {
        return None;
    }
    let (answer, _) = behind.split_first()?;
    answer.strip_prefix(INDENT)?.parse::<u8>().ok()
}

/// The example at the front of a page's lines, if there is one.
pub fn example_in<'a>(alloc: Global, lines: &[&'a str]) -> Result<Option<Example<'a>>, AllocError> {
    let Some((first, rest)) = lines.split_first() else {
        return Ok(None);
    };
    if let Some(line) = first.strip_prefix(PROMPT) {
        let printed = printed_in(alloc, rest)?;
        let behind = rest.get(printed.len()..).unwrap_or(&[]);
        return Ok(Some(Example {
            line,
            printed: Some(printed),
            status: shown_status(behind).unwrap_or(0),
        }));
    }
    match first.strip_prefix(BARE) {
        Some(line) => Ok(Some(Example {
            line,
            printed: None,
            status: 0,
        })),
        None => Ok(None),
    }
}
