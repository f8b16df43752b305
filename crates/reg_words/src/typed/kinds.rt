//! The types of values, by their words.

ghost use Rattle.std.specs.Prelude.{◌≡◌};
ghost use Rattle.reg_words.specs.ChangeWords.{kind_is as kind_of_form, numbered as numbered_kind, kind_in};

use crate::typed::numbers::read_number;

/// How the data of a value are written in words.
#[derive(Clone, Copy)]
pub enum DataForm {
    /// One text.
    Text,
    /// Texts, a word each.
    Texts,
    /// A number of 32 bits.
    Small,
    /// A number of 64 bits.
    Large,
    /// Bytes in hexadecimal digits.
    Digits,
}

/// A type, and how data of it are written.
#[derive(Clone, Copy)]
pub struct Kind {
    pub number: u32,
    pub form: DataForm,
}

/// A type of that number.
fn kind_is(number: u32, form: DataForm) -> Option<Kind>
    ensures { result ≡ kind_of_form number form }
{
    Some(Kind { number, form })
}

/// A type that is named by its number, which has its data as bytes.
fn numbered(word: &str) -> Option<Kind>
    ensures { result ≡ numbered_kind word.now }
{
    let number = read_number(u64::from(u32::MAX), word)? as u32;
    kind_is(number, DataForm::Digits)
}

/// The type that a word stands for.
pub fn read_kind(word: &str) -> Option<Kind>
    ensures { result ≡ kind_in word.now }
{
    if word == "none" {
        return kind_is(0, DataForm::Digits);
    }
    if word == "sz" {
        return kind_is(1, DataForm::Text);
    }
    if word == "expand" {
        return kind_is(2, DataForm::Text);
    }
    if word == "binary" {
        return kind_is(3, DataForm::Digits);
    }
    if word == "dword" {
        return kind_is(4, DataForm::Small);
    }
    if word == "multi" {
        return kind_is(7, DataForm::Texts);
    }
    if word == "qword" {
        return kind_is(11, DataForm::Large);
    }
    numbered(word)
}
