//! Names of foreign keys and values: of one byte a character, or in UTF-16LE.
//!
//! Suhanov, Windows registry file format specification, sections "Key node" and "Key value".

ghost use Rattle.std.specs.Prelude.{◌≡◌, ◌+◌, ◌*◌, ◌<◌, ◌≤◌, ◌%◌, ℕ, List, Bool, false, true, Some, length, slice_get};
ghost use Rattle.std.specs.List.{list_all};
ghost use Rattle.std.specs.Cow.{cow_slice_items};
ghost use Rattle.reg_shape.specs.Nodes.{letters};
ghost use Rattle.reg_tree_image.specs.LoadingWalk.{name_in};
ghost use Rattle.reg_tree_image.specs.Internal.ReaderOutcomes.{Gives};
ghost use Rattle.reg_tree_image.specs.Internal.NameReadings.{is_allowed_in, letters_in};

use crate::LoadFault;
use std::alloc::Global;
use std::borrow::CowSlice;

/// Whether a character may stand in a value's name.
fn is_value_letter(letter: u16) -> bool
    ensures { result ≡ is_allowed_in false letter }
{
    letter >= 1 && letter <= 127
}

/// Whether a character may stand in a key's name. Both tests are made in any case, so that a loop over a name has one branch for each.
fn is_key_letter(letter: u16) -> bool
    ensures { result ≡ is_allowed_in true letter }
{
    let is_plain = is_value_letter(letter);
    is_plain & (letter != 92)
}

/// Whether all characters of one byte each may stand in a key's name. All of them are looked at, so that several are at once.
fn are_key_letters(name: &[u8]) -> bool
    ensures { result ≡ list_all (is_allowed_in true) name.now }
{
    let mut are_good = true;
    for letter in name {
        let is_good = is_key_letter(u16::from(*letter));
        are_good = are_good & is_good;
    }
    are_good
}

/// Whether a character may stand in a key's name, or in a value's.
fn is_allowed(letter: u16, key: bool) -> bool
    ensures { result ≡ is_allowed_in key letter }
{
    if key {
        is_key_letter(letter)
    } else {
        is_value_letter(letter)
    }
}

/// Whether all characters of one byte each may stand in a key's name, or in a value's.
fn are_allowed(name: &[u8], key: bool) -> bool
    ensures { result ≡ list_all (is_allowed_in key) name.now }
{
    if key {
        are_key_letters(name)
    } else {
        name.iter()
            .all(|letter| is_value_letter(u16::from(*letter)))
    }
}

/// How many characters a name has.
fn letter_count(name: &[u8], single: bool) -> usize
    requires { single ≡ false → length name.now % 2 ≡ 0 }
    ensures { result ≡ length (letters single name.now) }
{
    if single { name.len() } else { name.len() / 2 }
}

/// The character at an index of a name of two bytes a character.
fn letter_at(name: &[u8], index: usize) -> u16
    requires even { length name.now % 2 ≡ 0 }
    requires within { index < length (letters false name.now) }
    requires small { length name.now < 9223372036854775808 }
    ensures { slice_get (letters false name.now) index ≡ Some result }
{
    let low = u16::from(name[2 * index]);
    let high = u16::from(name[2 * index + 1]);
    low + 256 * high
}

/// A copy of the characters of a name of two bytes a character, each of the profile and so of one byte.
fn wide_letters<'a>(alloc: Global, name: &[u8], key: bool) -> Result<CowSlice<'a, u8>, LoadFault>
    requires { length name.now % 2 ≡ 0 }
    ensures { Gives cow_slice_items (letters_in (is_allowed_in key) (letters false name.now)) result }
{
    let count = name.len() / 2;
    let Ok(mut read) = Vec::with_capacity(alloc, count) else {
        return Err(LoadFault::Memory);
    };
    for index in 0..count {
        let letter = letter_at(name, index);
        if !is_allowed(letter, key) {
            return Err(LoadFault::NotInProfile);
        }
        if read.push(letter as u8).is_err() {
            return Err(LoadFault::Memory);
        }
    }
    Ok(CowSlice::Owned(read))
}

/// A name's characters, each of the profile: those of one byte each where they stand, and of others a copy.
fn letters_from<'a>(
    alloc: Global,
    name: &'a [u8],
    single: bool,
    key: bool,
) -> Result<CowSlice<'a, u8>, LoadFault>
    requires { single ≡ false → length name.now % 2 ≡ 0 }
    ensures { Gives cow_slice_items (letters_in (is_allowed_in key) (letters single name.now)) result }
{
    if !single {
        return wide_letters(alloc, name, key);
    }
    if !are_allowed(name, key) {
        return Err(LoadFault::NotInProfile);
    }
    Ok(CowSlice::Borrowed(name))
}

/// A name's characters, each of the profile and so of one byte, at most so many. A copy is made only of those of two bytes each.
pub fn name_from<'a>(
    alloc: Global,
    name: &'a [u8],
    single: bool,
    most: usize,
    key: bool,
) -> Result<CowSlice<'a, u8>, LoadFault>
    ensures { Gives cow_slice_items (name_in single most (is_allowed_in key) name.now) result }
{
    if !single && name.len() % 2 != 0 {
        return Err(LoadFault::Record);
    }
    let count = letter_count(name, single);
    if count > most {
        return Err(LoadFault::Limit);
    }
    letters_from(alloc, name, single, key)
}
