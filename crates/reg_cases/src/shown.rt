//! What was written, beside what a page shows or a case wants. In a line `..` stands for any letters, so that a line of `..` is any one,
//! and as the last line it stands for all that follows.

use std::alloc::{AllocError, Global};
use std::str::Split;

/// How many letters of a line are told.
const TOLD: usize = 200;

/// Whether a line is as it is shown: `..` stands for any letters.
fn is_as_shown(shown: &str, line: &str) -> bool {
    if shown == line {
        return true;
    }
    match shown.split_once("..") {
        Some((front, back)) => {
            line.len() >= front.len() + back.len()
                && line.starts_with(front)
                && line.ends_with(back)
        }
        None => false,
    }
}

/// Whether so many lines are as shown.
fn is_front_as_shown(shown: &[&str], printed: &[&str]) -> bool {
    if printed.len() < shown.len() {
        return false;
    }
    for at in 0..shown.len() {
        if !is_as_shown(shown[at], printed[at]) {
            return false;
        }
    }
    true
}

/// Whether what was printed is as shown; a last line of `..` alone stands for all that follows.
pub fn are_as_shown(shown: &[&str], printed: &[&str]) -> bool {
    match shown.split_last() {
        Some((last, front)) if *last == ".." => is_front_as_shown(front, printed),
        _ => shown.len() == printed.len() && is_front_as_shown(shown, printed),
    }
}

/// The lines of a text, without the LF of each; a CR before that belongs to its line.
fn lines_of(text: &str) -> Split<'_, char> {
    text.strip_suffix('\n').unwrap_or(text).split('\n')
}

/// Whether a text is the one that a case wants, line by line, its last line ended.
fn is_text_wanted(alloc: Global, wanted: &str, text: &str) -> Result<bool, AllocError> {
    if wanted == text {
        return Ok(true);
    }
    if wanted.is_empty() || !text.ends_with('\n') {
        return Ok(false);
    }
    let wanted: Vec<&str> = lines_of(wanted).collect(alloc)?;
    let lines: Vec<&str> = lines_of(text).collect(alloc)?;
    Ok(are_as_shown(&wanted, &lines))
}

/// The front of a line, of so many letters as are told, in quotes; or that there is no such line.
fn told_line(alloc: Global, line: Option<&str>) -> Result<String, AllocError> {
    let Some(line) = line else {
        return "no line".to_string(alloc);
    };
    let mut front = String::new(alloc);
    for letter in line.chars().take(TOLD) {
        front.push(letter)?;
    }
    format!(in alloc; "{:?}", front.as_str())
}

/// How a text differs from the one that is wanted: the first line that isn't so, and what was wanted there. `None` where it is as wanted.
pub fn difference(
    alloc: Global,
    name: &str,
    wanted: &str,
    text: &str,
) -> Result<Option<String>, AllocError> {
    if is_text_wanted(alloc, wanted, text)? {
        return Ok(None);
    }
    let mut wants = lines_of(wanted);
    let mut lines = lines_of(text);
    for number in 1..=text.len().saturating_add(wanted.len()).saturating_add(1) {
        let (want, line) = (wants.next(), lines.next());
        if let (Some(shown), Some(written)) = (want, line)
            && is_as_shown(shown, written)
        {
            continue;
        }
        let want = told_line(alloc, want)?;
        let line = told_line(alloc, line)?;
        return Ok(Some(format!(in alloc;
            "line {number} of {name}: wanted {}, came {}",
            want.as_str(),
            line.as_str()
        )?));
    }
    Ok(Some(format!(in alloc; "{name}: the last line isn't ended")?))
}
