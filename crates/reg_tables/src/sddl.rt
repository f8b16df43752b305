//! Security descriptors in the security descriptor description language.
ghost use Rattle.std.specs.Prelude.{◌≡◌, IfOk, string_bytes};
ghost use Rattle.std.specs.Option.{option_map};
ghost use Rattle.reg_tables.specs.SecurityTexts.{sid_part, acl_part, acl_flags, dacl_part, sacl_part, is_descriptor, sddl_of, security_told};

mod ace;
mod acl;
mod fields;
mod sid;

use acl::acl_text;
use fields::{behind, join, letters_where, long_at, short_at};
use sid::sid_text;
use std::alloc::{AllocError, Global};

/// The flag that a DACL is there (\[MS-DTYP\] 2.4.6).
const DACL_PRESENT: u16 = 0x4;

/// The flag that a SACL is there.
const SACL_PRESENT: u16 = 0x10;

/// The flag that the descriptor is in self-relative form.
const SELF_RELATIVE: u16 = 0x8000;

/// The owner or the group at an offset, with what stands before it.
fn sid_part(
    alloc: Global,
    title: &str,
    offset: u32,
    bytes: &[u8],
) -> Result<Option<String>, AllocError>
    ensures { IfOk result (λ text. option_map string_bytes text ≡ sid_part title.now offset bytes.now) }
{
    if offset == 0 {
        return Ok(Some(String::new(alloc)));
    }
    let Some(sid) = sid_text(alloc, behind(bytes, offset))? else {
        return Ok(None);
    };
    Ok(Some(format!(in alloc; "{title}{sid}")?))
}

/// The letters of a control's flags for one ACL.
fn acl_flags(
    alloc: Global,
    control: u16,
    protected: u16,
    required: u16,
    inherited: u16,
) -> Result<String, AllocError>
    ensures { IfOk result (λ text. string_bytes text ≡ acl_flags control protected required inherited) }
{
    let protected = letters_where(control, protected, "P");
    let required = letters_where(control, required, "AR");
    let inherited = letters_where(control, inherited, "AI");
    format!(in alloc; "{protected}{required}{inherited}")
}

/// The ACL at an offset, with what stands before it.
fn acl_part(
    alloc: Global,
    title: &str,
    flags: &str,
    offset: u32,
    bytes: &[u8],
) -> Result<Option<String>, AllocError>
    ensures { IfOk result (λ text. option_map string_bytes text ≡ acl_part title.now flags.now offset bytes.now) }
{
    let Some(aces) = acl_text(alloc, behind(bytes, offset))? else {
        return Ok(None);
    };
    Ok(Some(format!(in alloc; "{title}{flags}{aces}")?))
}

/// The DACL.
fn dacl_part(
    alloc: Global,
    control: u16,
    offset: u32,
    bytes: &[u8],
) -> Result<Option<String>, AllocError>
    ensures { IfOk result (λ text. option_map string_bytes text ≡ dacl_part control offset bytes.now) }
{
    if control & DACL_PRESENT == 0 {
        return Ok(Some(String::new(alloc)));
    }
    if offset == 0 {
        return Ok(Some(String::from_str(alloc, "D:NO_ACCESS_CONTROL")?));
    }
    let flags = acl_flags(alloc, control, 0x1000, 0x100, 0x400)?;
    acl_part(alloc, "D:", flags.as_str(), offset, bytes)
}

/// The SACL.
fn sacl_part(
    alloc: Global,
    control: u16,
    offset: u32,
    bytes: &[u8],
) -> Result<Option<String>, AllocError>
    ensures { IfOk result (λ text. option_map string_bytes text ≡ sacl_part control offset bytes.now) }
{
    if control & SACL_PRESENT == 0 || offset == 0 {
        return Ok(Some(String::new(alloc)));
    }
    let flags = acl_flags(alloc, control, 0x2000, 0x200, 0x800)?;
    acl_part(alloc, "S:", flags.as_str(), offset, bytes)
}

/// Whether the bytes begin with a descriptor's header.
fn is_descriptor(bytes: &[u8]) -> bool
    ensures { result ≡ is_descriptor bytes.now }
{
    bytes.len() >= 20 && bytes[0] == 1 && short_at(bytes, 2) & SELF_RELATIVE != 0
}

/// The text of a security descriptor in SDDL, or `None` where the bytes are none in self-relative form.
#[tactic(auto, unfolding(crate::specs::SecurityTexts::sddl_of))]
pub fn sddl_text(alloc: Global, bytes: &[u8]) -> Result<Option<String>, AllocError>
    ensures { IfOk result (λ text. option_map string_bytes text ≡ sddl_of bytes.now) }
{
    if !is_descriptor(bytes) {
        return Ok(None);
    }
    let control = short_at(bytes, 2);
    let owner = sid_part(alloc, "O:", long_at(bytes, 4), bytes)?;
    let group = sid_part(alloc, "G:", long_at(bytes, 8), bytes)?;
    let dacl = dacl_part(alloc, control, long_at(bytes, 16), bytes)?;
    let sacl = sacl_part(alloc, control, long_at(bytes, 12), bytes)?;
    let sids = join(owner, group)?;
    let acls = join(dacl, sacl)?;
    join(sids, acls)
}

/// What is told of a key's security: the text of its descriptor, or the bytes of what is none, as two digits each.
#[tactic(auto, unfolding(crate::specs::SecurityTexts::security_told))]
pub fn security_text(alloc: Global, bytes: &[u8]) -> Result<String, AllocError>
    ensures { IfOk result (λ text. string_bytes text ≡ security_told bytes.now) }
{
    match sddl_text(alloc, bytes)? {
        Some(text) => Ok(text),
        None => Ok(hex::encode(alloc, bytes)?),
    }
}
