//! What is told of a line that isn't understood.
ghost use Rattle.std.specs.Prelude.{◌≡◌, map, take, string_bytes, IfOk};
ghost use Rattle.std.specs.List.{list_all};
ghost use Rattle.std.specs.Char.Utf16.{has_unpaired_surrogate};
ghost use Rattle.reg_dotreg_reader.specs.ToldLines.{is_control, plain_unit, shown, has_hives, hive_front};
ghost use Rattle.reg_dotreg_reader.specs.ToldLines.{is_typed, begins_name, ends_name, may_be_typed, hint};
ghost use Rattle.reg_dotreg_reader.specs.ToldLines.{found_told, whose, root_told, expected_told, told_line};

use crate::expected::{BadLine, Expected};
use crate::roots::{is_name, name_end};
use std::alloc::{AllocError, Global};

/// How many units are told of what was found.
const FOUND_LIMIT: usize = 200;

/// Whether a unit is a control character.
fn is_control(unit: u16) -> bool
    ensures { result ≡ is_control unit }
{
    unit < 32 || (unit >= 127 && unit < 160)
}

/// `?` for a control character.
fn plain_unit(unit: u16) -> u16
    ensures { result ≡ plain_unit unit }
{
    if is_control(unit) { 63 } else { unit }
}

/// Units with `?` in the place of each control character.
#[tactic(auto, using(crate::proofs::ToldTexts::plain))]
fn plain_units(alloc: Global, units: &[u16]) -> Result<Vec<u16>, AllocError>
    ensures { IfOk result (λ v. v.items ≡ map plain_unit units.now) }
{
    let mut plain = Vec::with_capacity(alloc, units.len())?;
    for unit in units {
        plain.push(plain_unit(*unit))?;
    }
    Ok(plain)
}

/// Units as text, with `?` in the place of a control character.
#[tactic(auto, using(crate::proofs::ToldTexts::shown_is))]
fn shown(alloc: Global, units: &[u16]) -> Result<String, AllocError>
    ensures { IfOk result (λ text. string_bytes text ≡ shown units.now) }
{
    let plain = plain_units(alloc, units)?;
    String::from_utf16_lossy(alloc, &plain)
}

/// Whether the root key of that name has a hive in each of its keys.
fn has_hives(name: &[u16]) -> bool
    ensures { result ≡ has_hives name.now }
{
    is_name(b"HKEY_LOCAL_MACHINE", name)
        || is_name(b"HKLM", name)
        || is_name(b"HKEY_USERS", name)
        || is_name(b"HKU", name)
}

/// The front of a key that may stand for a hive's root: its first name, or the first two below a root key that has hives.
#[tactic(auto, using(crate::proofs::ToldTexts::fronts))]
fn hive_front(key: &[u16]) -> &[u16]
    ensures { result.now ≡ hive_front key.now }
{
    let end = name_end(key);
    if end >= key.len() {
        return &key[..end];
    }
    if !has_hives(&key[..end]) {
        return &key[..end];
    }
    let second = name_end(&key[end + 1..]);
    &key[..end + 1 + second]
}

/// Whether a unit stands between single quotes on a command line as it is.
fn is_typed(unit: u16) -> bool
    ensures { result ≡ is_typed unit }
{
    !is_control(unit) && unit != 39
}

fn are_typed(units: &[u16]) -> bool
    ensures { result ≡ list_all is_typed units.now }
{
    units.iter().all(|unit| is_typed(*unit))
}

/// Whether a front has units, of which the first is no `-`: else it would be taken for an option.
fn begins_name(front: &[u16]) -> bool
    ensures { result ≡ begins_name front.now }
{
    let Some(first) = front.first() else {
        return false;
    };
    *first != 45
}

/// Whether a front has units, of which the last is no backslash.
fn ends_name(front: &[u16]) -> bool
    ensures { result ≡ ends_name front.now }
{
    let Some(last) = front.last() else {
        return false;
    };
    *last != 92
}

/// Whether the units of a front may be typed.
fn may_be_typed(front: &[u16]) -> bool
    ensures { result ≡ may_be_typed front.now }
{
    begins_name(front) && (ends_name(front) && (front.len() <= FOUND_LIMIT && are_typed(front)))
}

/// Whether a surrogate has no partner.
fn has_unpaired(alloc: Global, units: &[u16]) -> Result<bool, AllocError>
    ensures { IfOk result (λ b. b ≡ has_unpaired_surrogate units.now) }
{
    let text = String::from_utf16(alloc, units)?;
    Ok(text.is_err())
}

/// The option by which a front would stand for the root; nothing of one that can't be typed.
#[tactic(auto, unfolding(crate::specs::ToldLines::hint))]
fn hint(alloc: Global, front: &[u16]) -> Result<String, AllocError>
    ensures { IfOk result (λ text. string_bytes text ≡ hint front.now) }
{
    if !may_be_typed(front) || has_unpaired(alloc, front)? {
        return Ok(String::new(alloc));
    }
    let shown = shown(alloc, front)?;
    format!(in alloc; "; --prefix '{shown}' has that stand for it")
}

/// The first units of what was found, as many as are told.
#[tactic(auto, using(crate::proofs::ToldTexts::few_found))]
fn found_front(found: &[u16]) -> &[u16]
    ensures { result.now ≡ take 200 found.now }
{
    if found.len() < FOUND_LIMIT {
        found
    } else {
        &found[..FOUND_LIMIT]
    }
}

/// What was found in the place of the root's name, and the option by which that would stand for it.
#[tactic(auto, unfolding(crate::specs::ToldLines::found_told))]
fn found_text(alloc: Global, found: &[u16]) -> Result<String, AllocError>
    ensures { IfOk result (λ text. string_bytes text ≡ found_told found.now) }
{
    if found.is_empty() {
        return format!(in alloc; "]");
    }
    let front = shown(alloc, found_front(found))?;
    let hint = hint(alloc, hive_front(found))?;
    format!(in alloc; "{front}{hint}")
}

/// Whose name was expected.
fn whose(is_front: bool) -> &'static str
    ensures { result.now ≡ whose is_front }
{
    if is_front {
        ", which --prefix gives,"
    } else {
        ", the name of the hive's root,"
    }
}

/// A root's name that was expected, and what was found.
#[tactic(auto, unfolding(crate::specs::ToldLines::root_told))]
fn root_text(
    alloc: Global,
    root: &[u16],
    is_front: bool,
    found: &[u16],
) -> Result<String, AllocError>
    ensures { IfOk result (λ text. string_bytes text ≡ root_told root.now is_front found.now) }
{
    let name = shown(alloc, root)?;
    let whose = whose(is_front);
    let found = found_text(alloc, found)?;
    format!(in alloc; "{name}{whose} but found {found}")
}

/// What was expected, and what was found in its place.
#[tactic(auto, unfolding(crate::specs::ToldLines::expected_told))]
fn expected_text(
    alloc: Global,
    root: &[u16],
    is_front: bool,
    bad: &BadLine,
) -> Result<String, AllocError>
    ensures { IfOk result (λ text. string_bytes text ≡ expected_told root.now is_front bad.now) }
{
    if bad.expected.is_root() {
        return root_text(alloc, root, is_front, bad.found.as_slice());
    }
    let words = bad.expected.words();
    format!(in alloc; "{words}")
}

/// What is told of a line that isn't understood, without its number: the column, and what was expected there. The text is of keys below a
/// root of that name, or of a front that was given for it. Where a key begins otherwise, it tells what was found, and the option that takes
/// it.
#[tactic(auto, unfolding(crate::specs::ToldLines::told_line))]
pub fn told(
    alloc: Global,
    root: &[u16],
    is_front: bool,
    bad: &BadLine,
) -> Result<String, AllocError>
    ensures { IfOk result (λ text. string_bytes text ≡ told_line root.now is_front bad.now) }
{
    let column = bad.column;
    let expected = expected_text(alloc, root, is_front, bad)?;
    format!(in alloc; "column {column}: expected {expected}")
}
