//! The names of roots, and their long forms.
ghost use Rattle.std.specs.Prelude.{◌≡◌, ◌≤◌, ◌++◌, length, drop, position, option_copied, option_map, IfOk, IfSome};
ghost use Rattle.std.specs.List.{position_or_len};
ghost use Rattle.std.specs.Str.{bytes_eq};
ghost use Rattle.reg_names.specs.Names.{fold, folded, is_backslash};
ghost use Rattle.reg_dotreg_reader.specs.EntryMeanings.{behind_name, long_name, lengthened, long_form};

use std::alloc::{AllocError, Global};

/// A letter a to z becomes A to Z; every other unit stays.
fn folded(unit: u16) -> u16
    ensures { result ≡ fold unit }
{
    if unit >= 97 && unit <= 122 {
        unit - 32
    } else {
        unit
    }
}

/// What stands behind a name, where some units begin with it, letters of either case.
#[tactic(auto, using(crate::proofs::WordEnds::names))]
fn behind_name<'a>(name: &[u8], units: &'a [u16]) -> Option<&'a [u16]>
    ensures { option_copied result ≡ behind_name name.now units.now }
{
    let mut rest = units;
    for letter in name {
        let (unit, others) = rest.split_first()?;
        if folded(*unit) != folded(u16::from(*letter)) {
            return None;
        }
        rest = others;
    }
    Some(rest)
}

/// What stands behind a root's name, where some units begin with it, letters of ASCII of either case.
#[tactic(auto, using(crate::proofs::WordEnds::names))]
pub fn behind_root<'a>(root: &[u16], units: &'a [u16]) -> Option<&'a [u16]>
    ensures { option_copied result ≡ behind_name root.now units.now }
{
    let mut rest = units;
    for letter in root {
        let (unit, others) = rest.split_first()?;
        if folded(*unit) != folded(*letter) {
            return None;
        }
        rest = others;
    }
    Some(rest)
}

/// Whether some units are a name and no more, letters of either case.
#[tactic(auto, using(crate::proofs::RootNames::name_whole, crate::proofs::RootNames::name_not))]
pub fn is_name(name: &[u8], units: &[u16]) -> bool
    ensures { result ≡ bytes_eq (folded units.now) (folded name.now) }
{
    match behind_name(name, units) {
        Some(rest) => rest.is_empty(),
        None => false,
    }
}

/// The long form of a root key's short name.
fn long_name(name: &[u16]) -> Option<&'static [u8]>
    ensures { option_copied result ≡ long_name name.now }
{
    if is_name(b"HKLM", name) {
        return Some(b"HKEY_LOCAL_MACHINE");
    }
    if is_name(b"HKCU", name) {
        return Some(b"HKEY_CURRENT_USER");
    }
    if is_name(b"HKCR", name) {
        return Some(b"HKEY_CLASSES_ROOT");
    }
    if is_name(b"HKU", name) {
        return Some(b"HKEY_USERS");
    }
    if is_name(b"HKCC", name) {
        return Some(b"HKEY_CURRENT_CONFIG");
    }
    None
}

pub fn first_backslash(text: &[u16]) -> Option<usize>
    ensures { result ≡ position is_backslash text.now }
{
    text.iter().position(|unit| *unit == 92)
}

/// Where a text's first name ends: at its first backslash, or at its end.
#[tactic(auto, using(crate::proofs::RootNames::ends))]
pub fn name_end(text: &[u16]) -> usize
    ensures end { result ≡ position_or_len is_backslash text.now }
    ensures within { result ≤ length text.now }
{
    match first_backslash(text) {
        Some(end) => end,
        None => text.len(),
    }
}

/// The long form of a text's first name, and where that name ends.
#[tactic(auto, using(crate::proofs::RootNames::fronts))]
fn long_front(text: &[u16]) -> Option<(&'static [u8], usize)>
    ensures long { option_map (λ p. p.0.now ++ drop p.1 text.now) result ≡ lengthened text.now }
    ensures within { IfSome result (λ p. p.1 ≤ length text.now) }
{
    let end = name_end(text);
    match long_name(&text[..end]) {
        Some(long) => Some((long, end)),
        None => None,
    }
}

/// Bytes as units: each byte is one.
pub fn widened(alloc: Global, bytes: &[u8]) -> Result<Vec<u16>, AllocError>
    ensures { IfOk result (λ v. v.items ≡ bytes.now) }
{
    let mut units = Vec::with_capacity(alloc, bytes.len())?;
    for byte in bytes {
        units.push(u16::from(*byte))?;
    }
    Ok(units)
}

/// A text with its first name in the long form; `None` where that has none.
pub fn lengthened(alloc: Global, text: &[u16]) -> Result<Option<Vec<u16>>, AllocError>
    ensures { IfOk result (λ o. option_map (λ v. v.items) o ≡ lengthened text.now) }
{
    let Some((long, end)) = long_front(text) else {
        return Ok(None);
    };
    let mut units = widened(alloc, long)?;
    units.extend_from_slice(&text[end..])?;
    Ok(Some(units))
}

/// A root's name in its long form.
pub fn long_root(alloc: Global, root: &[u16]) -> Result<Vec<u16>, AllocError>
    ensures { IfOk result (λ v. v.items ≡ long_form root.now) }
{
    match lengthened(alloc, root)? {
        Some(long) => Ok(long),
        None => Vec::from_slice(alloc, root),
    }
}
