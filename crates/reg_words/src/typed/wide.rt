//! Texts in UTF-16, the low byte of each unit first, with a zero at the end.

ghost use Rattle.std.specs.Prelude.{◌≡◌, ◌++◌, OnOk};
ghost use Rattle.reg_words.specs.ChangeWords.{unit_bytes, character_bytes, ended};

use std::alloc::AllocError;

/// Appends a unit.
pub fn push_unit(bytes: &mut Vec<u8>, unit: u16) -> Result<(), AllocError>
    ensures { OnOk result (bytes.new.items ≡ bytes.old.items ++ unit_bytes unit) }
{
    bytes.push((unit % 256) as u8)?;
    bytes.push((unit / 256) as u8)?;
    Ok(())
}

/// Appends the units of a character.
fn push_character(bytes: &mut Vec<u8>, character: char) -> Result<(), AllocError>
    ensures { OnOk result (bytes.new.items ≡ bytes.old.items ++ character_bytes character) }
{
    let code = character as u32;
    if code < 0x1_0000 {
        return push_unit(bytes, code as u16);
    }
    let above = code - 0x1_0000;
    push_unit(bytes, (0xD800 + above / 0x400) as u16)?;
    push_unit(bytes, (0xDC00 + above % 0x400) as u16)
}

/// Appends a text, and a zero behind it.
pub fn push_text(bytes: &mut Vec<u8>, text: &str) -> Result<(), AllocError>
    ensures { OnOk result (bytes.new.items ≡ bytes.old.items ++ ended text.now) }
{
    let mut rest = text.chars();
    while let Some(character) = rest.next() {
        push_character(bytes, character)?;
    }
    push_unit(bytes, 0)
}
