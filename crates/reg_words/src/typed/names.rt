//! Paths and names, as they are typed.

ghost use Rattle.std.specs.Prelude.{◌≡◌, ◌<◌, ◌∷◌, [], length, map, drop, option_map, IfOk, IfSome, MatchOption};
ghost use Rattle.hex.specs.Hex.{hex_digit_value};
ghost use Rattle.reg_words.specs.ChangeWords.{escaped_byte, unescaped as unescaped_of, turned as turned_of, slashed as slashed_of};
ghost use Rattle.reg_words.specs.ChangeWords.{behind_backslash as behind_backslash_of, path_in, name_in};

use std::alloc::{AllocError, Global};

/// The value of a hexadecimal digit of either case.
pub fn digit(byte: u8) -> Option<u8>
    ensures { result ≡ hex_digit_value byte }
{
    match byte {
        b'0'..=b'9' => Some(byte - b'0'),
        b'a'..=b'f' => Some(byte - b'a' + 10),
        b'A'..=b'F' => Some(byte - b'A' + 10),
        _ => None,
    }
}

/// The byte that `%HH` at the start of some text stands for, and what follows.
fn escaped(text: &[u8]) -> Option<(u8, &[u8])>
    ensures byte { option_map (λ p. p.0) result ≡ escaped_byte text.now }
    ensures rest { IfSome result (λ p. p.1.now ≡ drop 3 text.now) }
{
    match text {
        [b'%', high, low, rest @ ..] => Some((digit(*high)? * 16 + digit(*low)?, rest)),
        _ => None,
    }
}

/// The next byte of an escaped text, and what follows: `%HH` stands for that byte, every other byte for itself.
#[tactic(auto, using(crate::proofs::EscapedWords::escape_next, crate::proofs::EscapedWords::plain_next))]
fn next_byte(text: &[u8]) -> Option<(u8, &[u8])>
    ensures { MatchOption result (text.now ≡ [])
        (λ p. (unescaped_of text.now ≡ p.0 ∷ unescaped_of p.1.now) × (length p.1.now < length text.now)) }
{
    match escaped(text) {
        Some((byte, rest)) => Some((byte, rest)),
        None => {
            let (first, rest) = text.split_first()?;
            Some((*first, rest))
        }
    }
}

/// The bytes that an escaped text stands for.
#[tactic(auto, using(crate::proofs::EscapedWords::word_begins, crate::proofs::EscapedWords::word_more, crate::proofs::EscapedWords::word_ends))]
fn unescaped(alloc: Global, text: &[u8]) -> Result<Vec<u8>, AllocError>
    ensures { IfOk result (λ bytes. bytes.items ≡ unescaped_of text.now) }
{
    let mut rest = text;
    let mut bytes = Vec::new(alloc);
    while let Some((byte, others)) = next_byte(rest) {
        bytes.push(byte)?;
        rest = others;
    }
    Ok(bytes)
}

/// A backslash in the place of a slash.
fn turned(byte: u8) -> u8
    ensures { result ≡ turned_of byte }
{
    if byte == b'/' { b'\\' } else { byte }
}

/// A word with backslashes in the place of slashes.
#[tactic(auto, using(crate::proofs::TurnedWords::turn_more, crate::proofs::TurnedWords::turn_ends))]
fn all_turned(alloc: Global, word: &[u8]) -> Result<Vec<u8>, AllocError>
    ensures { IfOk result (λ bytes. bytes.items ≡ map turned_of word.now) }
{
    let mut bytes = Vec::new(alloc);
    for byte in word {
        bytes.push(turned(*byte))?;
    }
    Ok(bytes)
}

/// A word, with backslashes in the place of slashes where these part names.
fn slashed(alloc: Global, word: &[u8], is_slash: bool) -> Result<Vec<u8>, AllocError>
    ensures { IfOk result (λ bytes. bytes.items ≡ slashed_of is_slash word.now) }
{
    if is_slash {
        return all_turned(alloc, word);
    }
    Vec::from_slice(alloc, word)
}

/// What stands behind a backslash at the start, and the whole where none is there.
fn behind_backslash(word: &[u8]) -> &[u8]
    ensures { result.now ≡ behind_backslash_of word.now }
{
    match word {
        [b'\\', rest @ ..] => rest,
        _ => word,
    }
}

/// The path that a word stands for: its names are parted by backslashes, or by slashes too where `is_slash`; one before the first name
/// is passed over, and `%HH` stands for that byte. Whether it is a path is not tested.
pub fn read_path(alloc: Global, word: &str, is_slash: bool) -> Result<Vec<u8>, AllocError>
    ensures { IfOk result (λ path. path.items ≡ path_in is_slash word.now) }
{
    let bytes = slashed(alloc, word.as_bytes(), is_slash)?;
    unescaped(alloc, behind_backslash(bytes.as_slice()))
}

/// The name of a value that a word stands for: `@` is the default value's, the empty one, and `%HH` stands for that byte. Whether it is a
/// name is not tested.
pub fn read_name(alloc: Global, word: &str) -> Result<Vec<u8>, AllocError>
    ensures { IfOk result (λ name. name.items ≡ name_in word.now) }
{
    if word == "@" {
        return Ok(Vec::new(alloc));
    }
    unescaped(alloc, word.as_bytes())
}
