//! Entries of access control lists.
ghost use Rattle.std.specs.Prelude.{◌≡◌, ◌+◌, ◌≤◌, length, slice_index, IfOk, IsTrue, string_bytes};
ghost use Rattle.std.specs.Option.{option_map};
ghost use Rattle.reg_tables.specs.SecurityTexts.{short_at, is_told, is_ace, kind_text, ace_flags, label_name, access_name, right_name, mask_text, rights_text, ace_text, ace_of};

use crate::sddl::fields::{letters_where, long_at, short_at};
use crate::sddl::sid::sid_text;
use std::alloc::{AllocError, Global};

/// The type of an ACE that is a mandatory label (\[MS-DTYP\] 2.4.4.1).
const LABEL: u8 = 0x11;

/// The one flag that has no letters.
const NAMELESS: u8 = 0x20;

/// Whether ACEs of a type are told.
fn is_told(kind: u8) -> bool
    ensures { result ≡ is_told kind }
{
    kind <= 2 || kind == LABEL
}

/// Whether the bytes begin with an ACE that is told.
fn is_ace(bytes: &[u8]) -> bool
    ensures { result ≡ is_ace bytes.now }
{
    if bytes.len() < 4 {
        return false;
    }
    let size = usize::from(short_at(bytes, 2));
    is_told(bytes[0]) && bytes[1] & NAMELESS == 0 && size >= 8 && size <= bytes.len()
}

/// The letters of a type.
fn kind_text(kind: u8) -> &'static str
    ensures { result.now ≡ kind_text kind }
{
    if kind == 0 {
        return "A";
    }
    if kind == 1 {
        return "D";
    }
    if kind == 2 {
        return "AU";
    }
    "ML"
}

/// The letters of flags, in the order in which Windows writes them.
fn ace_flags(alloc: Global, flags: u8) -> Result<String, AllocError>
    ensures { IfOk result (λ text. string_bytes text ≡ ace_flags flags) }
{
    let flags = u16::from(flags);
    let objects = letters_where(flags, 0x1, "OI");
    let containers = letters_where(flags, 0x2, "CI");
    let once = letters_where(flags, 0x4, "NP");
    let below = letters_where(flags, 0x8, "IO");
    let inherited = letters_where(flags, 0x10, "ID");
    let success = letters_where(flags, 0x40, "SA");
    let failure = letters_where(flags, 0x80, "FA");
    format!(in alloc; "{objects}{containers}{once}{below}{inherited}{success}{failure}")
}

/// The letters of a label's rights.
fn label_name(mask: u32) -> Option<&'static str>
    ensures { option_map (λ name. name.now) result ≡ label_name mask }
{
    if mask == 0x1 {
        return Some("NW");
    }
    if mask == 0x2 {
        return Some("NR");
    }
    if mask == 0x4 {
        return Some("NX");
    }
    None
}

/// The letters of any other ACE's rights.
fn access_name(mask: u32) -> Option<&'static str>
    ensures { option_map (λ name. name.now) result ≡ access_name mask }
{
    if mask == 0xF003F {
        return Some("KA");
    }
    if mask == 0x20019 {
        return Some("KR");
    }
    if mask == 0x20006 {
        return Some("KW");
    }
    if mask == 0x1000_0000 {
        return Some("GA");
    }
    if mask == 0x8000_0000 {
        return Some("GR");
    }
    if mask == 0x4000_0000 {
        return Some("GW");
    }
    if mask == 0x2000_0000 {
        return Some("GX");
    }
    None
}

/// The letters of rights; `None` where they have none.
#[tactic(auto, unfolding(crate::specs::SecurityTexts::right_name))]
fn right_name(kind: u8, mask: u32) -> Option<&'static str>
    ensures { option_map (λ name. name.now) result ≡ right_name kind mask }
{
    if kind == LABEL {
        return label_name(mask);
    }
    access_name(mask)
}

/// A mask in hexadecimal digits.
#[tactic(auto, unfolding(crate::specs::SecurityTexts::mask_text))]
fn mask_text(alloc: Global, mask: u32) -> Result<String, AllocError>
    ensures { IfOk result (λ text. string_bytes text ≡ mask_text mask) }
{
    format!(in alloc; "0x{mask:x}")
}

/// Rights, by their letters or in hexadecimal digits.
fn rights_text(alloc: Global, kind: u8, mask: u32) -> Result<String, AllocError>
    ensures { IfOk result (λ text. string_bytes text ≡ rights_text kind mask) }
{
    match right_name(kind, mask) {
        Some(name) => String::from_str(alloc, name),
        None => mask_text(alloc, mask),
    }
}

/// An ACE with its SID.
#[tactic(auto, unfolding(crate::specs::SecurityTexts::ace_text))]
fn ace_told(alloc: Global, bytes: &[u8], sid: &str) -> Result<String, AllocError>
    requires { 8 ≤ length bytes.now }
    ensures { IfOk result (λ text. string_bytes text ≡ ace_text bytes.now sid.now) }
{
    let kind = kind_text(bytes[0]);
    let flags = ace_flags(alloc, bytes[1])?;
    let rights = rights_text(alloc, bytes[0], long_at(bytes, 4))?;
    format!(in alloc; "({kind};{flags};{rights};;;{sid})")
}

/// The ACE that the bytes begin with.
#[tactic(auto, unfolding(crate::specs::SecurityTexts::ace_of))]
pub fn ace_text(alloc: Global, bytes: &[u8]) -> Result<Option<String>, AllocError>
    ensures { IfOk result (λ text. option_map string_bytes text ≡ ace_of bytes.now) }
{
    if !is_ace(bytes) {
        return Ok(None);
    }
    let ace = &bytes[..usize::from(short_at(bytes, 2))];
    let Some(sid) = sid_text(alloc, &ace[8..])? else {
        return Ok(None);
    };
    Ok(Some(ace_told(alloc, bytes, sid.as_str())?))
}
