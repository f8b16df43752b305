//! A value's data, as they are typed.

ghost use Rattle.std.specs.Prelude.{◌≡◌, IfOk, map, option_map};
ghost use Rattle.reg_words.specs.ChangeWords.{only as only_of, digits_of as digits_of_word, texts_in, digits_in, small_in, large_in, text_in};
ghost use Rattle.reg_words.specs.ChangeWords.{data_in, value_in};

use crate::typed::change::Contents;
use crate::typed::kinds::{DataForm, read_kind};
use crate::typed::numbers::read_number;
use crate::typed::wide::{push_text, push_unit};
use hex::FromHexError;
use std::alloc::{AllocError, Global};

/// The word, where it is the only one.
fn only<'a>(words: &[&'a str]) -> Option<&'a str>
    ensures { option_map (λ w. w.now) result ≡ only_of (map (λ w. w.now) words.now) }
{
    match words {
        [word] => Some(*word),
        _ => None,
    }
}

/// One text.
fn text(alloc: Global, words: &[&str]) -> Result<Option<Vec<u8>>, AllocError>
    ensures { IfOk result (λ bytes. option_map (λ v. v.items) bytes ≡ text_in (map (λ w. w.now) words.now)) }
{
    let Some(word) = only(words) else {
        return Ok(None);
    };
    let mut bytes = Vec::new(alloc);
    push_text(&mut bytes, word)?;
    Ok(Some(bytes))
}

/// Texts, none of them empty, and a zero behind them.
fn texts(alloc: Global, words: &[&str]) -> Result<Option<Vec<u8>>, AllocError>
    ensures { IfOk result (λ bytes. option_map (λ v. v.items) bytes ≡ texts_in (map (λ w. w.now) words.now)) }
{
    let mut bytes = Vec::new(alloc);
    for word in words {
        if word.is_empty() {
            return Ok(None);
        }
        push_text(&mut bytes, word)?;
    }
    push_unit(&mut bytes, 0)?;
    Ok(Some(bytes))
}

/// The bytes of one word.
fn digits_of(alloc: Global, word: &str) -> Result<Option<Vec<u8>>, AllocError>
    ensures { IfOk result (λ bytes. option_map (λ v. v.items) bytes ≡ digits_of_word word.now) }
{
    match hex::decode(alloc, word) {
        Ok(bytes) => Ok(Some(bytes)),
        Err(FromHexError::OutOfMemory) => Err(AllocError),
        Err(_) => Ok(None),
    }
}

/// Bytes in hexadecimal digits, of which a word has whole ones.
fn digits(alloc: Global, words: &[&str]) -> Result<Option<Vec<u8>>, AllocError>
    ensures { IfOk result (λ bytes. option_map (λ v. v.items) bytes ≡ digits_in (map (λ w. w.now) words.now)) }
{
    let mut bytes = Vec::new(alloc);
    for word in words {
        let Some(part) = digits_of(alloc, word)? else {
            return Ok(None);
        };
        bytes.extend_from_slice(part.as_slice())?;
    }
    Ok(Some(bytes))
}

/// A number of 32 bits.
fn small(alloc: Global, words: &[&str]) -> Result<Option<Vec<u8>>, AllocError>
    ensures { IfOk result (λ bytes. option_map (λ v. v.items) bytes ≡ small_in (map (λ w. w.now) words.now)) }
{
    let Some(word) = only(words) else {
        return Ok(None);
    };
    match read_number(u64::from(u32::MAX), word) {
        Some(number) => Ok(Some(Vec::from_slice(alloc, &(number as u32).to_le_bytes())?)),
        None => Ok(None),
    }
}

/// A number of 64 bits.
fn large(alloc: Global, words: &[&str]) -> Result<Option<Vec<u8>>, AllocError>
    ensures { IfOk result (λ bytes. option_map (λ v. v.items) bytes ≡ large_in (map (λ w. w.now) words.now)) }
{
    let Some(word) = only(words) else {
        return Ok(None);
    };
    match read_number(u64::MAX, word) {
        Some(number) => Ok(Some(Vec::from_slice(alloc, &number.to_le_bytes())?)),
        None => Ok(None),
    }
}

/// Data of a form.
fn data(alloc: Global, form: DataForm, words: &[&str]) -> Result<Option<Vec<u8>>, AllocError>
    ensures { IfOk result (λ bytes. option_map (λ v. v.items) bytes ≡ data_in form (map (λ w. w.now) words.now)) }
{
    match form {
        DataForm::Text => text(alloc, words),
        DataForm::Texts => texts(alloc, words),
        DataForm::Small => small(alloc, words),
        DataForm::Large => large(alloc, words),
        DataForm::Digits => digits(alloc, words),
    }
}

/// The type and the data that words stand for: the type's word or number, and then the data's words. `None` where one isn't understood,
/// or where there are too many or too few of them; [`value_fault`](crate::typed::value_fault) says which.
pub fn read_value(alloc: Global, kind: &str, words: &[&str]) -> Result<Option<Contents>, AllocError>
    ensures { IfOk result (λ value. option_map (λ c. (c.kind, c.bytes.items)) value ≡ value_in kind.now (map (λ w. w.now) words.now)) }
{
    let Some(kind) = read_kind(kind) else {
        return Ok(None);
    };
    match data(alloc, kind.form, words)? {
        Some(bytes) => Ok(Some(Contents {
            kind: kind.number,
            bytes,
        })),
        None => Ok(None),
    }
}
