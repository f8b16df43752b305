//! What the tests share. Whoever owns a hive lends it once, and does nothing else: a function is the longer to check the more it does while
//! it owns one.
use reg_callbacks::Callback;
use reg_calls::{Hive, SeatedHive};
use reg_fixtures::drafted;
use reg_image::load;
use reg_script::run;
use std::alloc::{AllocError, Global};
use std::test::Fail;

/// Fails where a report isn't what was wanted, or couldn't be made.
pub fn assert_report(report: Result<String, Fail>, wanted: &str) -> Result<(), Fail> {
    let text = report?;
    if text.as_str() == wanted {
        return Ok(());
    }
    Err(Fail::new(format_args!("{:?}, and not {wanted:?}", text.as_str())))
}

/// The hive of a draft's table, or, where that is empty, a fresh one of the root `ROOT` alone, made at moment 0.
pub fn hive<C: Callback>(alloc: Global, table: &str) -> Result<Hive<C>, Fail> {
    if table.is_empty() {
        return Ok(Hive::new(alloc, b"ROOT", &[7; 20], 0)?);
    }
    let image = drafted(alloc, 5, table)?;
    let mut input = image.as_slice();
    Ok(load(alloc, &mut input)?)
}

/// That hive with the shares of its sessions.
pub fn seated<C: Callback>(alloc: Global, table: &str) -> Result<SeatedHive<C>, Fail> {
    Ok(SeatedHive::new(hive(alloc, table)?)?)
}

/// What a hive replies to the lines of a script.
pub fn replies<C: Callback>(
    alloc: Global,
    hive: &mut SeatedHive<C>,
    lines: &str,
) -> Result<String, Fail> {
    let mut input = lines.as_bytes();
    let mut output = Vec::new(alloc);
    run(
        alloc,
        &mut input,
        &mut output,
        &mut hive.hive,
        &mut hive.shares,
    )?;
    Ok(String::from_utf8(output)?)
}

/// Appends a text so many times, with `#` for how many times it came before.
fn push_repeated(to: &mut String, count: u32, repeated: &str) -> Result<(), AllocError> {
    let numbered = repeated.split_once('#');
    for turn in 0..count {
        match numbered {
            Some((front, rest)) => write!(to, "{front}{turn}{rest}")?,
            None => to.push_str(repeated)?,
        }
    }
    Ok(())
}

/// The number and the text of a repetition `N TEXT}`, and what is behind it.
fn repetition_in(piece: &str) -> Option<(u32, &str, &str)> {
    let (repeated, rest) = piece.split_once('}')?;
    let (count, text) = repeated.split_once(' ')?;
    Some((count.parse::<u32>().ok()?, text, rest))
}

/// The lines that a text stands for: `;` ends a line too, and `{N TEXT}` is the text N times, with `#` for how many times it came before.
pub fn lines_of(alloc: Global, text: &str) -> Result<String, AllocError> {
    let mut lines = String::new(alloc);
    for piece in text.split('{') {
        match repetition_in(piece) {
            Some((count, repeated, rest)) => {
                push_repeated(&mut lines, count, repeated)?;
                lines.push_str(rest)?;
            }
            None => lines.push_str(piece)?,
        }
    }
    lines.as_str().replace(alloc, ';', "\n")
}
