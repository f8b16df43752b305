//! Numbers, in decimal digits or in hexadecimal ones behind `0x`.

ghost use Rattle.std.specs.Prelude.{◌≡◌, ◌≤◌, ◌<◌, IfSome};
ghost use Rattle.reg_words.specs.ChangeWords.{digit_of, digits_number, based as based_of, number_in};

use crate::typed::names::digit as hexadecimal;

/// The most digits of a number: so many has the greatest of 64 bits.
const DIGITS_LIMIT: usize = 20;

/// The value of a digit of a base.
fn digit(base: u128, byte: u8) -> Option<u128>
    ensures value { result ≡ digit_of base byte }
    ensures below { IfSome result (λ value. value < base) }
{
    let value = u128::from(hexadecimal(byte)?);
    if value < base { Some(value) } else { None }
}

/// The number of at least one digit of a base and at most so many.
#[tactic(auto, using(crate::proofs::Digits::numbers))]
fn number(base: u128, digits: &[u8]) -> Option<u128>
    requires { base ≤ 16 }
    ensures { result ≡ digits_number base digits.now }
{
    if digits.is_empty() || digits.len() > DIGITS_LIMIT {
        return None;
    }
    let mut number: u128 = 0;
    for byte in digits {
        let value = digit(base, *byte)?;
        number = number * base + value;
    }
    Some(number)
}

/// A number's base, and its digits.
fn based(word: &[u8]) -> (u128, &[u8])
    ensures value { (result.0, result.1.now) ≡ based_of word.now }
    ensures base { result.0 ≤ 16 }
{
    match word {
        [b'0', b'x', digits @ ..] => (16, digits),
        _ => (10, word),
    }
}

/// The number that a word stands for, where it isn't above the limit.
pub fn read_number(limit: u64, word: &str) -> Option<u64>
    ensures value { result ≡ number_in limit word.now }
    ensures within { IfSome result (λ number. number ≤ limit) }
{
    let (base, digits) = based(word.as_bytes());
    let number = number(base, digits)?;
    if number > u128::from(limit) {
        return None;
    }
    Some(number as u64)
}
