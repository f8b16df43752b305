//! Lines and parts of lines that are repeated, with a number in them.
//!
//! `{3 ab}` is `ababab`, and `{5..7 =k#}` is `=k5=k6=k7`. A line that begins with `{5..7}` is three lines. In what is repeated `#` is the
//! number, with as many digits as there are `#` at least, and `#+2` is the number and 2. `{x0d}` is the character of these bytes in UTF-8.

use std::alloc::{AllocError, Global};

/// Numbers from one to another, both included.
#[derive(Clone, Copy)]
pub struct Range {
    /// The first.
    pub first: u64,
    /// The last.
    pub last: u64,
}

/// The numbers of `5..7`; of `3` those from 1 to 3.
fn range_of(text: &str) -> Option<Range> {
    let (first, last) = match text.split_once("..") {
        Some((first, last)) => (first.parse::<u64>().ok()?, last),
        None => (1, text),
    };
    Some(Range {
        first,
        last: last.parse::<u64>().ok()?,
    })
}

impl Range {
    /// How many numbers it has.
    pub fn count(self) -> usize {
        if self.last < self.first {
            return 0;
        }
        let behind_the_first = self.last - self.first;
        usize::try_from(behind_the_first)
            .unwrap_or(usize::MAX)
            .saturating_add(1)
    }
}

/// How often a line comes that begins with a range, and its pattern.
pub fn repeated_line(line: &str) -> Option<(Range, &str)> {
    let (count, pattern) = line.strip_prefix('{')?.split_once('}')?;
    let range = range_of(count)?;
    Some((range, pattern.strip_prefix(' ').unwrap_or(pattern)))
}

/// What is added to a number by `+` and digits at a text's front, and the text behind.
fn added_in(text: &str) -> (u64, &str) {
    let Some(behind) = text.strip_prefix('+') else {
        return (0, text);
    };
    let tail = behind.trim_start_matches(|letter: char| letter.is_ascii_digit());
    let digits = behind.strip_suffix(tail).unwrap_or("");
    match digits.parse::<u64>() {
        Ok(added) => (added, tail),
        Err(_) => (0, text),
    }
}

/// Appends a number with so many digits at least.
fn push_number(out: &mut String, number: u64, width: usize) -> Result<(), AllocError> {
    write!(out, "{number:0width$}")
}

/// A pattern with a number in the place of each `#`.
pub fn numbered(alloc: Global, pattern: &str, number: u64) -> Result<String, AllocError> {
    let mut out = String::new(alloc);
    let mut rest = pattern;
    for _turn in 0..=pattern.len() {
        let Some((front, behind)) = rest.split_once('#') else {
            break;
        };
        let tail = behind.trim_start_matches('#');
        let width = behind.len().saturating_sub(tail.len()).saturating_add(1);
        let (added, tail) = added_in(tail);
        out.push_str(front)?;
        push_number(&mut out, number.saturating_add(added), width)?;
        rest = tail;
    }
    out.push_str(rest)?;
    Ok(out)
}

/// What is repeated behind an opening brace, how often, and the text behind the closing one.
fn repetition_in(text: &str) -> Option<(Range, &str, &str)> {
    let (inside, behind) = text.split_once('}')?;
    let (count, pattern) = inside.split_once(' ')?;
    Some((range_of(count)?, pattern, behind))
}

/// Appends a pattern for each number of a range.
fn push_repeated(
    alloc: Global,
    out: &mut String,
    range: Range,
    pattern: &str,
) -> Result<(), AllocError> {
    if !pattern.contains('#') {
        let repeated = pattern.repeat(alloc, range.count())?;
        return out.push_str(repeated.as_str());
    }
    for number in range.first..=range.last {
        out.push_str(numbered(alloc, pattern, number)?.as_str())?;
    }
    Ok(())
}

/// The text whose bytes stand as digits behind an opening brace, and what is behind the closing one.
fn bytes_in(alloc: Global, text: &str) -> Option<(String, &str)> {
    let (inside, behind) = text.split_once('}')?;
    let bytes = hex::decode(alloc, inside.strip_prefix('x')?).ok()?;
    Some((String::from_utf8(bytes).ok()?, behind))
}

/// A line with all that is repeated in it written out.
pub fn written_out(alloc: Global, line: &str) -> Result<String, AllocError> {
    let mut out = String::new(alloc);
    let mut rest = line;
    for _turn in 0..=line.len() {
        let Some((front, behind)) = rest.split_once('{') else {
            break;
        };
        out.push_str(front)?;
        if let Some((range, pattern, tail)) = repetition_in(behind) {
            push_repeated(alloc, &mut out, range, pattern)?;
            rest = tail;
        } else if let Some((text, tail)) = bytes_in(alloc, behind) {
            out.push_str(text.as_str())?;
            rest = tail;
        } else {
            out.push('{')?;
            rest = behind;
        }
    }
    out.push_str(rest)?;
    Ok(out)
}

/// A line with the parts of a row in the places of `$1`, `$2` and so on.
pub fn filled(alloc: Global, line: &str, parts: &[&str]) -> Result<String, AllocError> {
    let mut text = line.to_string(alloc)?;
    for at in 0..parts.len() {
        let number = at.saturating_add(1);
        let place = format!(in alloc; "${number}")?;
        text = text.as_str().replace(alloc, place.as_str(), parts[at])?;
    }
    Ok(text)
}
