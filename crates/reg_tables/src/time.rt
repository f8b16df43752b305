//! The time of a key, told.
ghost use Rattle.std.specs.Prelude.{◌≡◌, ◌≤◌, IfOk, string_bytes};
ghost use Rattle.std.specs.Fmt.{decimal};
ghost use Rattle.reg_tables.specs.Times.{instant_text, time_text};

use jiff::Timestamp;
use jiff::fmt::temporal::DateTimePrinter;
use std::alloc::{AllocError, Global};

/// The last time that jiff says as an instant, 9999-12-30T22:00:00.9999999Z, as a FILETIME.
pub const LAST_INSTANT: u64 = 2_650_466_808_009_999_999;

/// How many 100 ns lie between the start of 1601, from where a FILETIME counts, and that of 1970.
const EPOCH: i128 = 116_444_736_000_000_000;

/// The text of an instant that jiff says.
fn instant(alloc: Global, ticks: u64) -> Result<String, AllocError>
    requires { ticks ≤ LAST_INSTANT }
    ensures { IfOk result (λ text. string_bytes text ≡ instant_text ticks) }
{
    let Ok(timestamp) = Timestamp::from_nanosecond((ticks as i128 - EPOCH) * 100) else {
        unreachable!()
    };
    let text = DateTimePrinter::new().timestamp_text(timestamp.to_plain());
    String::from_str(alloc, text.as_str())
}

/// A number in decimal.
pub fn number_text(alloc: Global, number: u64) -> Result<String, AllocError>
    ensures { IfOk result (λ text. string_bytes text ≡ decimal number) }
{
    let mut text = String::new(alloc);
    write!(text, "{number}")?;
    Ok(text)
}

/// A time as a text: an instant, or the number of its 100 ns.
pub fn moment_text(alloc: Global, ticks: u64) -> Result<String, AllocError>
    ensures { IfOk result (λ text. string_bytes text ≡ time_text ticks) }
{
    if ticks > LAST_INSTANT {
        return number_text(alloc, ticks);
    }
    instant(alloc, ticks)
}
