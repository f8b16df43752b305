//! Moments as they are typed.

ghost use Rattle.std.specs.Prelude.{◌≡◌, ◌++◌, codes, Ok, IfOk, MatchOption, option_map};
ghost use Rattle.jiff.specs.Words.{parse_timestamp};
ghost use Rattle.reg_words.specs.Moments.{IsMoment, IsTickOf, TellsMoment, instant_in};
ghost use Rattle.reg_words.specs.Internal.Commands.{IsFound, Tries};

use jiff::Timestamp;
use std::alloc::{AllocError, Global};

/// How many nanoseconds lie between the start of 1601 and that of 1970.
const EPOCH: i128 = 11_644_473_600_000_000_000;

/// What stands behind a date for its first instant in UTC.
const MIDNIGHT: &str = "T00:00:00Z";

/// A number of 64 bits; `None` where a text writes none.
fn number_of(text: &str) -> Option<u64>
    ensures { IsFound (IsMoment text.now) result }
{
    match text.parse::<u64>() {
        Ok(number) => Some(number),
        Err(_) => None,
    }
}

/// In which unit of 100 ns since 1601 an instant is; `None` where that is no number of 64 bits.
fn ticks_of(instant: Timestamp) -> Option<u64>
    ensures { IsFound (IsTickOf instant.nanosecond) result }
{
    let since = instant.as_nanosecond().checked_add(EPOCH)?;
    if since < 0 {
        return None;
    }
    match u64::try_from(since / 100) {
        Ok(ticks) => Some(ticks),
        Err(_) => None,
    }
}

/// An instant; `None` where a text tells none.
fn instant_of(text: &str) -> Option<Timestamp>
    ensures { Tries result (parse_timestamp text.now) }
{
    match text.parse::<Timestamp>() {
        Ok(instant) => Some(instant),
        Err(_) => None,
    }
}

/// The first instant of a date.
fn day_of(alloc: Global, text: &str) -> Result<Option<Timestamp>, AllocError>
    ensures { IfOk result (λ instant. Tries instant (parse_timestamp (text.now ++ codes "T00:00:00Z"))) }
{
    let mut whole = String::from_str(alloc, text)?;
    whole.push_str(MIDNIGHT)?;
    Ok(instant_of(whole.as_str()))
}

/// An instant, or the first one of a date.
fn instant_or_day(alloc: Global, text: &str) -> Result<Option<Timestamp>, AllocError>
    ensures { IfOk result (λ instant. Tries instant (instant_in text.now)) }
{
    let instant = instant_of(text);
    if instant.is_some() {
        return Ok(instant);
    }
    day_of(alloc, text)
}

/// A moment that isn't told by its number, in units of 100 ns since 1601; `None` where a text tells none.
fn moment_of(alloc: Global, text: &str) -> Result<Option<u64>, AllocError>
    requires { IsFound (IsMoment text.now) None }
    ensures { IfOk result (λ moment. IsFound (TellsMoment text.now) moment) }
{
    match instant_or_day(alloc, text)? {
        Some(instant) => Ok(ticks_of(instant)),
        None => Ok(None),
    }
}

/// A moment, in units of 100 ns since 1601: by its number, or as an instant or a date; `None` where a text tells none.
pub fn read_moment(alloc: Global, text: &str) -> Result<Option<u64>, AllocError>
    ensures { IfOk result (λ moment. IsFound (TellsMoment text.now) moment) }
{
    match number_of(text) {
        Some(number) => Ok(Some(number)),
        None => moment_of(alloc, text),
    }
}
