//! Characters and units in UTF-8 or in UTF-16, the low byte of each unit first.
ghost use Rattle.std.specs.Prelude.{◌≡◌, false, ◌∷◌, [], ◌++◌, OnOk};
ghost use Rattle.reg_dotreg_writer.specs.Entries.{encoded, mark};
ghost use Rattle.reg_dotreg_writer.specs.Internal.Pieces.{plain};

use std::alloc::{AllocError, Global};

/// Appends a character of ASCII.
pub fn push_character(bytes: &mut Vec<u8>, is_utf8: bool, character: u8) -> Result<(), AllocError>
    ensures { OnOk result (bytes.new.items ≡ bytes.old.items ++ plain is_utf8 (character ∷ [])) }
{
    bytes.push(character)?;
    if is_utf8 {
        return Ok(());
    }
    bytes.push(0)?;
    Ok(())
}

/// Appends characters of ASCII in UTF-16.
fn push_plain_wide(bytes: &mut Vec<u8>, part: &[u8]) -> Result<(), AllocError>
    ensures { OnOk result (bytes.new.items ≡ bytes.old.items ++ plain false part.now) }
{
    for character in part {
        bytes.push(*character)?;
        bytes.push(0)?;
    }
    Ok(())
}

/// Appends characters of ASCII.
pub fn push_plain(bytes: &mut Vec<u8>, is_utf8: bool, part: &[u8]) -> Result<(), AllocError>
    ensures { OnOk result (bytes.new.items ≡ bytes.old.items ++ plain is_utf8 part.now) }
{
    if is_utf8 {
        return bytes.extend_from_slice(part);
    }
    push_plain_wide(bytes, part)
}

/// Appends units in UTF-16.
#[tactic(auto, unfolding(crate::specs::Entries::encoded))]
fn push_wide(bytes: &mut Vec<u8>, units: &[u16]) -> Result<(), AllocError>
    ensures { OnOk result (bytes.new.items ≡ bytes.old.items ++ encoded false units.now) }
{
    for unit in units {
        bytes.push((*unit % 256) as u8)?;
        bytes.push((*unit / 256) as u8)?;
    }
    Ok(())
}

/// Appends units.
#[tactic(auto, unfolding(crate::specs::Entries::encoded))]
pub fn push_units(
    alloc: Global,
    bytes: &mut Vec<u8>,
    is_utf8: bool,
    units: &[u16],
) -> Result<(), AllocError>
    ensures { OnOk result (bytes.new.items ≡ bytes.old.items ++ encoded is_utf8 units.now) }
{
    if is_utf8 {
        let text = String::from_utf16_lossy(alloc, units)?;
        return bytes.extend_from_slice(text.as_bytes());
    }
    push_wide(bytes, units)
}

/// Appends what stands before a text: the mark of UTF-16.
pub fn push_mark(bytes: &mut Vec<u8>, is_utf8: bool) -> Result<(), AllocError>
    ensures { OnOk result (bytes.new.items ≡ bytes.old.items ++ mark is_utf8) }
{
    if is_utf8 {
        return Ok(());
    }
    bytes.extend_from_slice(&[0xFF, 0xFE])
}
