//! The numbers, flags and texts of which descriptors are made.
ghost use Rattle.std.specs.Prelude.{◌≡◌, ◌+◌, ◌≤◌, length, drop, IfOk, string_bytes};
ghost use Rattle.std.specs.Option.{option_map};
ghost use Rattle.reg_tables.specs.SecurityTexts.{short_at, long_at, flag_text, joined};

use byteorder::{ByteOrder, LittleEndian};
use std::alloc::AllocError;

/// The number of 16 bits at a place.
#[tactic(auto, unfolding(crate::specs::SecurityTexts::short_at))]
pub fn short_at(bytes: &[u8], place: usize) -> u16
    requires { place + 2 ≤ length bytes.now }
    ensures { result ≡ short_at place bytes.now }
{
    LittleEndian::read_u16(&bytes[place..])
}

/// The number of 32 bits at a place.
#[tactic(auto, unfolding(crate::specs::SecurityTexts::long_at))]
pub fn long_at(bytes: &[u8], place: usize) -> u32
    requires { place + 4 ≤ length bytes.now }
    ensures { result ≡ long_at place bytes.now }
{
    LittleEndian::read_u32(&bytes[place..])
}

/// The bytes from an offset on; none where it is behind them.
pub fn behind(bytes: &[u8], offset: u32) -> &[u8]
    ensures { result.now ≡ drop offset bytes.now }
{
    let place = offset as usize;
    if place > bytes.len() {
        return &bytes[bytes.len()..];
    }
    &bytes[place..]
}

/// A flag's letters, where it is set.
pub fn letters_where(flags: u16, flag: u16, letters: &'static str) -> &'static str
    ensures { result.now ≡ flag_text flags flag letters.now }
{
    if flags & flag == 0 {
        return "";
    }
    letters
}

/// Two texts in one, where both are there.
pub fn join(first: Option<String>, second: Option<String>) -> Result<Option<String>, AllocError>
    ensures { IfOk result (λ text. option_map string_bytes text ≡ joined (option_map string_bytes first) (option_map string_bytes second)) }
{
    let Some(mut text) = first else {
        return Ok(None);
    };
    let Some(more) = second else {
        return Ok(None);
    };
    text.push_str(more.as_str())?;
    Ok(Some(text))
}
