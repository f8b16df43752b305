//! Numbers and bytes in hexadecimal digits.
ghost use Rattle.std.specs.Prelude.{◌≡◌, ◌<◌, ◌≤◌, ◌^◌, length, position, Some, IfSome, IfOk, IfErr};
ghost use Rattle.hex.specs.Hex.{hex_digit_value};
ghost use Rattle.reg_dotreg_reader.specs.EntryWords.{number_of, byte_of, is_comma, list_bytes};
ghost use Rattle.reg_dotreg_reader.specs.LineStops.{is_byte_to};
ghost use Rattle.reg_dotreg_reader.specs.declared.fault.LineFault.TheVariants.{Form};
ghost use Rattle.reg_dotreg_reader.specs.Internal.ReadSoFar.{Reads};

use crate::fault::LineFault;
use crate::words::trimmed;
use std::alloc::Global;

/// The value of a hexadecimal digit of either case.
pub fn digit(unit: u16) -> Option<u32>
    ensures { result ≡ hex_digit_value unit }
{
    match unit {
        48..=57 => Some(unit as u32 - 48),
        97..=102 => Some(unit as u32 - 87),
        65..=70 => Some(unit as u32 - 55),
        _ => None,
    }
}

/// The number of at least one hexadecimal digit and at most so many.
#[tactic(auto, using(crate::proofs::DigitLists::numbers))]
pub fn number(limit: usize, digits: &[u16]) -> Result<u32, LineFault>
    requires { limit ≤ 8 }
    ensures value { Reads (λ n. n) (number_of limit digits.now) result }
    ensures within { IfOk result (λ n. n < 16 ^ limit) }
    ensures form { IfErr result (λ fault. fault ≡ Form) }
{
    if digits.is_empty() || digits.len() > limit {
        return Err(LineFault::Form);
    }
    let mut number: u32 = 0;
    for unit in digits {
        let Some(value) = digit(*unit) else {
            return Err(LineFault::Form);
        };
        number = number * 16 + value;
    }
    Ok(number)
}

/// The byte of just two digits, as most are; `None` of every other piece.
fn plain_byte(piece: &[u16]) -> Option<u8>
    ensures { IfSome result (λ byte. byte_of piece.now ≡ Some byte) }
{
    if piece.len() != 2 {
        return None;
    }
    let high = digit(piece[0])?;
    let low = digit(piece[1])?;
    Some((high * 16 + low) as u8)
}

/// A byte: one hexadecimal digit or two, blanks around them.
fn byte(piece: &[u16]) -> Result<u8, LineFault>
    ensures { Reads (λ n. n) (byte_of piece.now) result }
{
    if let Some(byte) = plain_byte(piece) {
        return Ok(byte);
    }
    Ok(number(2, trimmed(piece))? as u8)
}

/// Whether a piece is a byte of at most so much.
pub fn is_byte_to(most: u32, piece: &[u16]) -> bool
    ensures { result ≡ is_byte_to most piece.now }
{
    match number(2, trimmed(piece)) {
        Ok(byte) => byte <= most,
        Err(_) => false,
    }
}

pub fn first_comma(list: &[u16]) -> Option<usize>
    ensures place { result ≡ position is_comma list.now }
    ensures within { IfSome result (λ index. index < length list.now) }
{
    list.iter().position(|unit| *unit == 44)
}

/// The bytes of a list, parted by commas, of which one may stand at the end.
#[tactic(auto, using(crate::proofs::DigitLists::lists))]
pub fn list_bytes(alloc: Global, list: &[u16]) -> Result<Vec<u8>, LineFault>
    ensures { Reads (λ v. v.items) (list_bytes list.now) result }
{
    let mut bytes = Vec::with_capacity(alloc, list.len() / 3)?;
    let mut rest = list;
    while let Some(comma) = first_comma(rest) {
        bytes.push(byte(&rest[..comma])?)?;
        rest = &rest[comma + 1..];
    }
    if trimmed(rest).is_empty() {
        return Ok(bytes);
    }
    bytes.push(byte(rest)?)?;
    Ok(bytes)
}
