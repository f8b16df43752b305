//! The words of a line, and what each kind of word stands for.

ghost use Rattle.std.specs.Prelude.{◌≡◌, ◌<◌, ◌≤◌, ◌∷◌, [], length, drop, option_map, option_copied, ok_or, IfSome, IfOk, IfErr, MatchOption, MatchResult};
ghost use Rattle.hex.specs.Hex.{hex_digit_value};
ghost use Rattle.reg_script.specs.declared.words.ParseFault.TheVariants.{Memory};
ghost use Rattle.reg_script.specs.LineWords.{after_mark as after_mark_of, number_of, escaped_byte, unescaped, name_of, data_of};
ghost use Rattle.reg_script.specs.LineMeanings.{small_number_of, session_number_of, hive_number_of, room_of, subtree_of, call_verb_of, verb_of};
ghost use Rattle.reg_script.specs.Internal.Verbs.{query_verb_of, key_verb_of};

use crate::line::{Session, Verb};
use hex::FromHexError;
use reg_model::Bytes;
use reg_model::limits::SESSIONS_LIMIT;
use std::alloc::{AllocError, AllocFailed, Global};

/// Why a line isn't understood. The functions here answer `Form` for a word that is none of theirs, and `Memory` only where
/// they keep bytes.
#[derive(Drop)]
pub enum ParseFault {
    /// A word isn't one that may stand there, or there are too few words or too many.
    Form,
    /// There is no memory for its bytes.
    Memory,
}

impl<T: Drop> From<AllocFailed<T>> for ParseFault {
    ghost from_gives = { λ _ r. r ≡ Memory };

    fn from(_fault: AllocFailed<T>) -> ParseFault {
        ParseFault::Memory
    }
}

impl From<AllocError> for ParseFault {
    ghost from_gives = { λ _ r. r ≡ Memory };

    fn from(_fault: AllocError) -> ParseFault {
        ParseFault::Memory
    }
}

/// The first word of a question.
#[tactic(auto, unfolding(crate::specs::Internal::Verbs::query_verb_of))]
fn query_verb(word: &[u8]) -> Result<Verb, ParseFault>
    ensures { result ≡ ok_or (query_verb_of word.now) ParseFault.Form }
{
    if word == b"query".as_slice() {
        return Ok(Verb::Query);
    }
    if word == b"enumkey".as_slice() {
        return Ok(Verb::EnumKey);
    }
    if word == b"enumvalue".as_slice() {
        return Ok(Verb::EnumValue);
    }
    if word == b"info".as_slice() {
        return Ok(Verb::Info);
    }
    if word == b"getsec".as_slice() {
        return Ok(Verb::GetSec);
    }
    Err(ParseFault::Form)
}

/// The first word of a call that neither opens a key nor changes a value.
#[tactic(auto, unfolding(crate::specs::Internal::Verbs::key_verb_of))]
fn key_verb(word: &[u8]) -> Result<Verb, ParseFault>
    ensures { result ≡ ok_or (key_verb_of word.now) ParseFault.Form }
{
    if word == b"delkey".as_slice() {
        return Ok(Verb::DelKey);
    }
    if word == b"deltree".as_slice() {
        return Ok(Verb::DelTree);
    }
    if word == b"setsec".as_slice() {
        return Ok(Verb::SetSec);
    }
    if word == b"notify".as_slice() {
        return Ok(Verb::Notify);
    }
    if word == b"close".as_slice() {
        return Ok(Verb::Close);
    }
    query_verb(word)
}

/// The first word of a call.
#[tactic(auto, unfolding(crate::specs::LineMeanings::call_verb_of, crate::specs::Internal::Verbs::key_verb_of, crate::specs::Internal::Verbs::query_verb_of))]
fn call_verb(word: &[u8]) -> Result<Verb, ParseFault>
    ensures { result ≡ ok_or (call_verb_of word.now) ParseFault.Form }
{
    if word == b"root".as_slice() {
        return Ok(Verb::Root);
    }
    if word == b"open".as_slice() {
        return Ok(Verb::Open);
    }
    if word == b"create".as_slice() {
        return Ok(Verb::Create);
    }
    if word == b"set".as_slice() {
        return Ok(Verb::Set);
    }
    if word == b"delvalue".as_slice() {
        return Ok(Verb::DelValue);
    }
    key_verb(word)
}

/// What a line is, by its first word: a setting, a call, or the taking of a notice.
#[tactic(auto, unfolding(crate::specs::LineMeanings::verb_of))]
pub fn verb(word: &[u8]) -> Result<Verb, ParseFault>
    ensures { result ≡ ok_or (verb_of word.now) ParseFault.Form }
{
    if word == b"at".as_slice() {
        return Ok(Verb::At);
    }
    if word == b"as".as_slice() {
        return Ok(Verb::As);
    }
    if word == b"hive".as_slice() {
        return Ok(Verb::Hive);
    }
    if word == b"notice".as_slice() {
        return Ok(Verb::Notice);
    }
    call_verb(word)
}

/// The number that decimal digits spell, leading zeros allowed, if it is at most `limit`.
pub fn number(word: &[u8], limit: u64) -> Result<u64, ParseFault>
    ensures value { result ≡ ok_or (number_of limit word.now) ParseFault.Form }
    ensures within { IfOk result (λ n. n ≤ limit) }
{
    if word.is_empty() {
        return Err(ParseFault::Form);
    }
    let mut number: u64 = 0;
    for byte in word {
        if !byte.is_ascii_digit() {
            return Err(ParseFault::Form);
        }
        let digit = u64::from(*byte - b'0');
        let Some(tens) = number.checked_mul(10) else {
            return Err(ParseFault::Form);
        };
        let Some(sum) = tens.checked_add(digit) else {
            return Err(ParseFault::Form);
        };
        number = sum;
    }
    if number > limit {
        return Err(ParseFault::Form);
    }
    Ok(number)
}

/// A number of at most 32 bits.
pub fn small_number(word: &[u8]) -> Result<u32, ParseFault>
    ensures { result ≡ ok_or (small_number_of word.now) ParseFault.Form }
{
    Ok(number(word, u64::from(u32::MAX))? as u32)
}

/// A session: a number below [`SESSIONS_LIMIT`].
pub fn session(word: &[u8]) -> Result<Session, ParseFault>
    ensures { MatchResult result (λ s. session_number_of word.now ≡ Some s.number)
        (λ e. (e ≡ ParseFault.Form) × (session_number_of word.now ≡ None)) }
{
    let number = number(word, SESSIONS_LIMIT as u64 - 1)? as u8;
    Ok(Session { number })
}

/// A hive: a number below 16, the most hives that there may be.
pub fn hive(word: &[u8]) -> Result<u8, ParseFault>
    ensures { result ≡ ok_or (hive_number_of word.now) ParseFault.Form }
{
    Ok(number(word, 15)? as u8)
}

/// `-` for no room, or a number of 32 bits.
#[tactic(auto, unfolding(crate::specs::LineMeanings::room_of))]
pub fn room(word: &[u8]) -> Result<Option<u32>, ParseFault>
    ensures { result ≡ ok_or (room_of word.now) ParseFault.Form }
{
    if word == b"-".as_slice() {
        return Ok(None);
    }
    Ok(Some(small_number(word)?))
}

/// `1` where the keys below are watched too, `0` where they aren't, and no other word: no leading zeros.
#[tactic(auto, unfolding(crate::specs::LineMeanings::subtree_of))]
pub fn subtree(word: &[u8]) -> Result<bool, ParseFault>
    ensures { result ≡ ok_or (subtree_of word.now) ParseFault.Form }
{
    if word == b"0".as_slice() {
        return Ok(false);
    }
    if word == b"1".as_slice() {
        return Ok(true);
    }
    Err(ParseFault::Form)
}

/// The value of a hexadecimal digit of either case.
fn digit(byte: u8) -> Option<u8>
    ensures { result ≡ hex_digit_value byte }
{
    match byte {
        b'0'..=b'9' => Some(byte - b'0'),
        b'a'..=b'f' => Some(byte - b'a' + 10),
        b'A'..=b'F' => Some(byte - b'A' + 10),
        _ => None,
    }
}

/// The byte that `%HH` at the start of some text stands for, and what follows.
fn escaped(text: &[u8]) -> Option<(u8, &[u8])>
    ensures byte { option_map (λ p. p.0) result ≡ escaped_byte text.now }
    ensures rest { IfSome result (λ p. p.1.now ≡ drop 3 text.now) }
{
    match text {
        [b'%', high, low, rest @ ..] => Some((digit(*high)? * 16 + digit(*low)?, rest)),
        _ => None,
    }
}

/// The next byte of an escaped text, and what follows: `%HH` stands for that byte, every other byte for itself.
#[tactic(auto, using(crate::proofs::EscapedNames::escape_next, crate::proofs::EscapedNames::plain_next))]
fn next_byte(text: &[u8]) -> Option<(u8, &[u8])>
    ensures { MatchOption result (text.now ≡ [])
        (λ p. (unescaped text.now ≡ p.0 ∷ unescaped p.1.now) × (length p.1.now < length text.now)) }
{
    match escaped(text) {
        Some((byte, rest)) => Some((byte, rest)),
        None => {
            let (first, rest) = text.split_first()?;
            Some((*first, rest))
        }
    }
}

/// What follows a word's first byte, where that is the mark.
#[tactic(auto, unfolding(crate::specs::LineWords::after_mark))]
fn after_mark(mark: u8, word: &[u8]) -> Option<&[u8]>
    ensures { option_copied result ≡ after_mark_of mark word.now }
{
    let (first, rest) = word.split_first()?;
    if *first == mark { Some(rest) } else { None }
}

/// `=` and then an escaped text.
#[tactic(auto, using(crate::proofs::EscapedNames::name_more, crate::proofs::EscapedNames::name_ends), unfolding(crate::specs::LineWords::name_of))]
pub fn name(alloc: Global, word: &[u8]) -> Result<Bytes, ParseFault>
    ensures ok { IfOk result (λ n. name_of word.now ≡ Some n) }
    ensures err { IfErr result (λ e. e ≡ ParseFault.Form → name_of word.now ≡ None) }
{
    let Some(text) = after_mark(b'=', word) else {
        return Err(ParseFault::Form);
    };
    let mut rest = text;
    let mut name = Vec::new(alloc);
    while let Some((byte, others)) = next_byte(rest) {
        name.push(byte)?;
        rest = others;
    }
    Ok(Bytes::from_vec(name))
}

/// `x` and then an even number of hexadecimal digits.
#[tactic(auto, unfolding(crate::specs::LineWords::data_of))]
pub fn bytes(alloc: Global, word: &[u8]) -> Result<Bytes, ParseFault>
    ensures ok { IfOk result (λ b. data_of word.now ≡ Some b) }
    ensures err { IfErr result (λ e. e ≡ ParseFault.Form → data_of word.now ≡ None) }
{
    let Some(digits) = after_mark(b'x', word) else {
        return Err(ParseFault::Form);
    };
    match hex::decode(alloc, digits) {
        Ok(bytes) => Ok(Bytes::from_vec(bytes)),
        Err(FromHexError::OutOfMemory) => Err(ParseFault::Memory),
        Err(_) => Err(ParseFault::Form),
    }
}
