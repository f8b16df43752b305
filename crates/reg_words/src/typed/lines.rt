//! A change told in a line.

ghost use Rattle.std.specs.Prelude.{◌≡◌, ◌++◌, codes, string_bytes, IfOk, OnOk};
ghost use Rattle.std.specs.Fmt.{decimal};
ghost use Rattle.reg_text.specs.Texts.{escaped as escaped_text};
ghost use Rattle.reg_words.specs.ChangeLines.{told as told_of, key_line, value_line, set_line};

use crate::typed::change::{Contents, KeyChange};
use reg_text::{write_digits, write_escaped};
use std::alloc::{AllocError, Global};

/// Appends a name behind a mark.
fn push_name(text: &mut String, name: &[u8]) -> Result<(), AllocError>
    ensures { OnOk result (string_bytes text.new ≡ string_bytes text.old ++ (codes " =" ++ escaped_text name.now)) }
{
    text.push_str(" =")?;
    write_escaped(text, name)
}

/// Appends the number of a type.
fn push_number(text: &mut String, kind: u32) -> Result<(), AllocError>
    ensures { OnOk result (string_bytes text.new ≡ string_bytes text.old ++ (codes " type " ++ decimal kind)) }
{
    text.push_str(" type ")?;
    write!(text, "{kind}")
}

/// The line of a key.
fn key_told(alloc: Global, deed: &str, path: &[u8]) -> Result<String, AllocError>
    ensures { IfOk result (λ text. string_bytes text ≡ key_line deed.now path.now) }
{
    let mut text = String::from_str(alloc, deed)?;
    push_name(&mut text, path)?;
    text.push_str("\n")?;
    Ok(text)
}

/// The line of a value that goes.
fn value_told(alloc: Global, path: &[u8], name: &[u8]) -> Result<String, AllocError>
    ensures { IfOk result (λ text. string_bytes text ≡ value_line path.now name.now) }
{
    let mut text = String::from_str(alloc, "delete value")?;
    push_name(&mut text, path)?;
    push_name(&mut text, name)?;
    text.push_str("\n")?;
    Ok(text)
}

/// The line of a value that is set.
fn set_told(
    alloc: Global,
    path: &[u8],
    name: &[u8],
    contents: &Contents,
) -> Result<String, AllocError>
    ensures { IfOk result (λ text. string_bytes text ≡ set_line path.now name.now contents.now.kind contents.now.bytes.items) }
{
    let mut text = String::from_str(alloc, "set value")?;
    push_name(&mut text, path)?;
    push_name(&mut text, name)?;
    push_number(&mut text, contents.kind)?;
    text.push_str(" x")?;
    write_digits(alloc, &mut text, contents.bytes.as_slice())?;
    text.push_str("\n")?;
    Ok(text)
}

/// The line that tells a change: what is done, the key's path, and of a value its name, type and data.
pub fn told(alloc: Global, change: &KeyChange) -> Result<String, AllocError>
    ensures { IfOk result (λ text. string_bytes text ≡ told_of change.now) }
{
    match change {
        KeyChange::CreateKey { path, .. } => key_told(alloc, "create key", path.as_slice()),
        KeyChange::SetValue {
            path,
            name,
            contents,
            ..
        } => set_told(alloc, path.as_slice(), name.as_slice(), contents),
        KeyChange::DeleteValue { path, name } => {
            value_told(alloc, path.as_slice(), name.as_slice())
        }
        KeyChange::DeleteKey { path, .. } => key_told(alloc, "delete key", path.as_slice()),
    }
}
