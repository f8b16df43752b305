//! Access control lists.
ghost use Rattle.std.specs.Prelude.{◌≡◌, ◌+◌, ◌≤◌, length, IfOk, string_bytes};
ghost use Rattle.std.specs.Option.{option_map};
ghost use Rattle.reg_tables.specs.SecurityTexts.{aces_of, acl_of};

use crate::sddl::ace::ace_text;
use crate::sddl::fields::{behind, short_at};
use std::alloc::{AllocError, Global};

/// So many ACEs, one behind the other.
fn aces_text(alloc: Global, count: u16, bytes: &[u8]) -> Result<Option<String>, AllocError>
    ensures { IfOk result (λ text. option_map string_bytes text ≡ aces_of count bytes.now) }
{
    let mut text = String::new(alloc);
    let mut rest = bytes;
    for _ace in 0..count {
        let Some(ace) = ace_text(alloc, rest)? else {
            return Ok(None);
        };
        text.push_str(ace.as_str())?;
        rest = behind(rest, u32::from(short_at(rest, 2)));
    }
    Ok(Some(text))
}

/// The ACEs of the list that the bytes begin with.
#[tactic(auto, unfolding(crate::specs::SecurityTexts::acl_of))]
pub fn acl_text(alloc: Global, bytes: &[u8]) -> Result<Option<String>, AllocError>
    ensures { IfOk result (λ text. option_map string_bytes text ≡ acl_of bytes.now) }
{
    if bytes.len() < 8 {
        return Ok(None);
    }
    let size = usize::from(short_at(bytes, 2));
    if size < 8 || size > bytes.len() {
        return Ok(None);
    }
    let list = &bytes[..size];
    aces_text(alloc, short_at(bytes, 4), &list[8..])
}
