//! Moments of the host's clock.

ghost use Rattle.std.specs.Prelude.{◌≡◌};
ghost use Rattle.std.specs.Duration.{as_nanos};
ghost use Rattle.reg_files.specs.Moments.{moment_of};

use std::time::Duration;

/// The time from 1601 to 1970, in units of 100 ns.
const FROM_1601_TO_1970: u128 = 116_444_736_000_000_000;

/// A time since 1970 as a moment, in units of 100 ns since 1601; what is past the last moment is that one.
pub fn moment_at(since_1970: Duration) -> u64
    ensures { result ≡ moment_of (as_nanos since_1970) }
{
    let moment = since_1970.as_nanos() / 100 + FROM_1601_TO_1970;
    u64::try_from(moment).unwrap_or(u64::MAX)
}
