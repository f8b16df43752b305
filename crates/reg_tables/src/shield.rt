//! JSON in a script of HTML.
ghost use Rattle.std.specs.Prelude.{◌≡◌, IfOk, string_bytes};
ghost use Rattle.reg_tables.specs.Pages.{shielded};

use std::alloc::{AllocError, Global};

/// JSON with each `<` as `\u003c`, so that nothing in it ends the script that it stands in.
pub fn shield(alloc: Global, text: &str) -> Result<String, AllocError>
    ensures { IfOk result (λ shown. string_bytes shown ≡ shielded text.now) }
{
    let mut shown = String::new(alloc);
    let mut rest = text;
    while let Some((before, behind)) = rest.split_once('<') {
        shown.push_str(before)?;
        shown.push_str("\\u003c")?;
        rest = behind;
    }
    shown.push_str(rest)?;
    Ok(shown)
}
