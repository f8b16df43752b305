//! Where paths that aren't understood stop.
ghost use Rattle.std.specs.Prelude.{◌≡◌};
ghost use Rattle.std.specs.List.{slice_split};
ghost use Rattle.reg_names.specs.Names.{is_backslash};
ghost use Rattle.reg_names.specs.declared.TheConstants.{PATH_LIMIT as path_limit};
ghost use Rattle.reg_dotreg_reader.specs.LineStops.{name_wanted, names_stop, path_stop};

use crate::expected::Expected;
use crate::quote_stops::{are_name_units, left_from_other};
use crate::roots::first_backslash;
use reg_names::{KEY_NAME_LIMIT, PATH_LIMIT};

/// What was expected in the place of a name of some length, where so many names may stand; `None` where it may stand itself.
fn name_wanted(room: usize, long: usize) -> Option<Expected>
    ensures { result ≡ name_wanted room long }
{
    if long == 0 {
        return Some(Expected::KeyName);
    }
    if long > KEY_NAME_LIMIT {
        return Some(Expected::ShortKeyName);
    }
    if room == 0 {
        return Some(Expected::Path);
    }
    None
}

/// Where the names of a path stop: at the first that is empty, too long or too many.
#[tactic(auto, using(crate::proofs::StopPlaces::names_left))]
fn names_stop(path: &[u16]) -> (Expected, usize)
    ensures { result ≡ names_stop path_limit (slice_split is_backslash path.now) }
{
    let mut room = PATH_LIMIT;
    let mut rest = path;
    while let Some(end) = first_backslash(rest) {
        if let Some(expected) = name_wanted(room, end) {
            return (expected, rest.len());
        }
        room = room.saturating_sub(1);
        rest = &rest[end + 1..];
    }
    match name_wanted(room, rest.len()) {
        Some(expected) => (expected, rest.len()),
        None => (Expected::Path, 0),
    }
}

/// Where a path stops.
#[tactic(auto, unfolding(crate::specs::LineStops::path_stop))]
pub fn path_stop(path: &[u16]) -> (Expected, usize)
    ensures { result ≡ path_stop path.now }
{
    if are_name_units(path) {
        names_stop(path)
    } else {
        (Expected::KeyCharacter, left_from_other(path))
    }
}
