//! Names of keys and values, and paths of them: which are allowed, and how they fold, compare and hash.
//!
//! Its one contract: each function is exactly its definition in `specs/Names.antt`, and a check tells the fault of the earliest
//! byte. It stands on no other crate of this repository.
//!
//! Its type is [`NameFault`]. A name is a slice of bytes, and a path is names joined by backslashes.
//!
//! Win32 registry reference, "Registry Element Size Limits"; the limits to bytes 0x01 to 0x7F are this project's own.
#![tactic(auto)]

ghost use Rattle.std.specs.Prelude.{◌≡◌, ◌≤◌, ◌+◌, ◌==◌, ◌||◌, true, List, [], ◌∷◌, ◌++◌, length, map, if◌then◌else◌, ◌↔◌, IsTrue, OnOk, IfOk};
ghost use Rattle.std.specs.Prelude.{MatchOption, MatchResult, Some, None, is_ok, take};
ghost use Rattle.std.specs.List.{list_all, position_or_len};
ghost use Rattle.reg_names.specs.Names.{fold as fold_of, folded, name_cmp, hash, key_name_fault, value_name_fault, path_of, path_fault, is_key_name};
ghost use Rattle.reg_names.specs.Names.{is_value_name, is_path, IsFirst, is_backslash, is_key_name_byte as is_key_byte_of};
ghost use Rattle.reg_names.specs.Names.{is_value_name_byte as is_value_byte_of};

use std::alloc::{AllocError, Global};
use std::cmp::Ordering;
use thiserror::Error;

/// The longest key name, in bytes (Win32, "Registry Element Size Limits").
pub const KEY_NAME_LIMIT: usize = 255;

/// The longest value name, in bytes (Win32, "Registry Element Size Limits").
pub const VALUE_NAME_LIMIT: usize = 16_383;

/// The most names in a path (Win32, "Registry Element Size Limits": the levels of a tree).
pub const PATH_LIMIT: usize = 512;

/// How many bytes of two names are compared at once.
const STEP: usize = 16;

/// What is wrong with a name or a path.
#[derive(Clone, Copy, Debug, PartialEq, Eq, Error)]
pub enum NameFault {
    /// A key name of no bytes, or such a part of a path.
    #[error("the name is empty")]
    Empty,
    /// A byte outside 0x01 to 0x7F, or a backslash in a key name.
    #[error("the name has a byte that names may not have")]
    BadByte,
    /// More bytes than the limit.
    #[error("the name is too long")]
    NameTooLong,
    /// A path of more names than the limit.
    #[error("the path has too many names")]
    TooManyLevels,
}

fn is_value_name_byte(byte: u8) -> bool
    ensures { result ≡ is_value_byte_of byte }
{
    byte >= 0x01 && byte <= 0x7F
}

fn is_key_name_byte(byte: u8) -> bool
    ensures { result ≡ is_key_byte_of byte }
{
    is_value_name_byte(byte) && byte != b'\\'
}

fn are_value_name_bytes(bytes: &[u8]) -> bool
    ensures { result ≡ list_all is_value_byte_of bytes.now }
{
    bytes.iter().all(|byte| is_value_name_byte(*byte))
}

fn are_key_name_bytes(bytes: &[u8]) -> bool
    ensures { result ≡ list_all is_key_byte_of bytes.now }
{
    bytes.iter().all(|byte| is_key_name_byte(*byte))
}

fn front(name: &[u8], limit: usize) -> &[u8]
    ensures { result.now ≡ take limit name.now }
{
    &name[..name.len().min(limit)]
}

/// Checks a key name. The fault is that of the earliest byte at which one arises.
pub fn check_key_name(name: &[u8]) -> Result<(), NameFault>
    ensures fault { MatchResult result (λ _. key_name_fault name.now ≡ None) (λ fault. key_name_fault name.now ≡ Some fault) }
    ensures valid { is_ok result ≡ is_key_name name.now }
{
    if name.is_empty() {
        return Err(NameFault::Empty);
    }
    if !are_key_name_bytes(front(name, KEY_NAME_LIMIT)) {
        return Err(NameFault::BadByte);
    }
    if name.len() > KEY_NAME_LIMIT {
        return Err(NameFault::NameTooLong);
    }
    Ok(())
}

/// Checks a value name; the empty name is that of a key's default value. The fault is that of the earliest byte at
/// which one arises.
pub fn check_value_name(name: &[u8]) -> Result<(), NameFault>
    ensures fault { MatchResult result (λ _. value_name_fault name.now ≡ None) (λ fault. value_name_fault name.now ≡ Some fault) }
    ensures valid { is_ok result ≡ is_value_name name.now }
{
    if !are_value_name_bytes(front(name, VALUE_NAME_LIMIT)) {
        return Err(NameFault::BadByte);
    }
    if name.len() > VALUE_NAME_LIMIT {
        return Err(NameFault::NameTooLong);
    }
    Ok(())
}

/// How many bytes a path has before its first backslash, or its end.
fn first_length(path: &[u8]) -> usize
    ensures { result ≡ position_or_len is_backslash path.now }
{
    path.iter()
        .position(|byte| *byte == b'\\')
        .unwrap_or(path.len())
}

/// The first name of a path, and the path behind it; `None` where the path has no names.
#[tactic(auto, using(crate::proofs::PathFirstName::within))]
pub fn first_name(path: &[u8]) -> Option<(&[u8], &[u8])>
    requires { is_path path.now ≡ true }
    ensures { MatchOption result (path_of path.now ≡ []) (λ p. IsFirst path.now p.0.now p.1.now) }
{
    if path.is_empty() {
        return None;
    }
    let length = first_length(path);
    if length == path.len() {
        return Some((path, &[]));
    }
    Some((&path[..length], &path[length + 1..]))
}

/// Checks a path: at most 512 key names with one backslash between each two. The empty text is the path of no names.
///
/// The fault is that of the earliest byte at which one arises. An empty name's is at the backslash or the end that closes
/// it, and that of a name past the 512th, an empty one too, at its start.
pub fn check_path(path: &[u8]) -> Result<(), NameFault>
    ensures fault { MatchResult result (λ _. path_fault path.now ≡ None) (λ fault. path_fault path.now ≡ Some fault) }
    ensures valid { is_ok result ≡ is_path path.now }
{
    if path.is_empty() {
        return Ok(());
    }
    let mut rest = path;
    for _number in 0..PATH_LIMIT {
        let length = first_length(rest);
        check_key_name(&rest[..length])?;
        if length == rest.len() {
            return Ok(());
        }
        rest = &rest[length + 1..];
    }
    Err(NameFault::TooManyLevels)
}

/// Appends a text, folded.
fn push_folded(text: &mut Vec<u8>, bytes: &[u8]) -> Result<(), AllocError>
    ensures { OnOk result (text.new.items ≡ text.old.items ++ folded bytes.now) }
{
    for byte in bytes {
        text.push(fold(*byte))?;
    }
    Ok(())
}

/// Appends the backslash between two paths, unless one of them has no names.
fn push_backslash(text: &mut Vec<u8>, above: &[u8], path: &[u8]) -> Result<(), AllocError>
    ensures { OnOk result (text.new.items ≡ (if (length above.now == 0) || (length path.now == 0) then text.old.items else text.old.items ++ 92 ∷ [])) }
{
    if above.is_empty() || path.is_empty() {
        return Ok(());
    }
    text.push(b'\\')?;
    Ok(())
}

/// A path behind another, folded: the names of both, with one backslash between each two. Two paths of at most 512 names may
/// have more together, and only with at most 512 is the text a path again (clause `valid`). Its one fault is that memory was
/// refused.
pub fn join_paths(alloc: Global, above: &[u8], path: &[u8]) -> Result<Vec<u8>, AllocError>
    requires above { is_path above.now ≡ true }
    requires path { is_path path.now ≡ true }
    ensures names { IfOk result (λ text. path_of text.items ≡ map folded (path_of above.now) ++ map folded (path_of path.now)) }
    ensures valid { IfOk result (λ text. length (path_of above.now) + length (path_of path.now) ≤ PATH_LIMIT → is_path text.items ≡ true) }
{
    let mut text = Vec::with_capacity(alloc, above.len() + path.len() + 1)?;
    push_folded(&mut text, above)?;
    push_backslash(&mut text, above, path)?;
    push_folded(&mut text, path)?;
    Ok(text)
}

/// A letter a to z becomes A to Z; every other byte stays.
pub fn fold(byte: u8) -> u8
    ensures { result ≡ fold_of byte }
{
    byte.to_ascii_uppercase()
}

/// The hash of a name, as the entries of a hash leaf hold it: that of its folded bytes.
///
/// Suhanov, Windows registry file format specification, section "Subkeys list".
pub fn name_hash(name: &[u8]) -> u32
    ensures { result ≡ hash name.now }
{
    let mut hash: u32 = 0;
    for byte in name {
        hash = hash.wrapping_mul(37).wrapping_add(u32::from(fold(*byte)));
    }
    hash
}

/// Whether two names are the same after folding.
pub fn same_name(a: &[u8], b: &[u8]) -> bool
    ensures { IsTrue result ↔ (folded a.now ≡ folded b.now) }
{
    if a.len() != b.len() {
        return false;
    }
    match name_order(a, b) {
        Ordering::Equal => true,
        Ordering::Less | Ordering::Greater => false,
    }
}

/// The length of a front that two names have alike byte for byte, in whole steps: as many steps as they have. Bytes of a step are
/// compared all at once, so that names which differ at their ends alone take little longer than short ones.
fn common_front(a: &[u8], b: &[u8]) -> usize
    ensures alike { take result a.now ≡ take result b.now }
    ensures within { (result ≤ length a.now) × (result ≤ length b.now) }
{
    let most = a.len().min(b.len());
    let mut front = 0;
    while front + STEP <= most && a[front..front + STEP] == b[front..front + STEP] {
        front += STEP;
    }
    front
}

/// The order of two names by their folded bytes; a prefix comes first.
pub fn name_order(a: &[u8], b: &[u8]) -> Ordering
    ensures { result ≡ name_cmp a.now b.now }
{
    for index in common_front(a, b)..a.len().min(b.len()) {
        let order = fold(a[index]).cmp(&fold(b[index]));
        if order != Ordering::Equal {
            return order;
        }
    }
    a.len().cmp(&b.len())
}
