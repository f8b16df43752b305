//! What isn't understood of a text, and what was expected in its place.

use crate::units::Units;
use std::fmt;
use std::fmt::{Display, Formatter};

/// What was expected at a place of a text.
#[derive(Clone, Copy, Debug, PartialEq, Eq)]
pub enum Expected {
    /// A title, as the first line.
    Title,
    /// What a line begins with.
    Line,
    /// A key that is made, above a value.
    Key,
    /// The root's name, or the front that stands for it, or a short form of either.
    Root,
    /// A character that names of keys may have.
    KeyCharacter,
    /// A name of a key, where none stands.
    KeyName,
    /// A name of a key that isn't too long.
    ShortKeyName,
    /// A path that hasn't too many names.
    Path,
    /// The bracket that closes a key.
    Bracket,
    /// The quote that closes a name or a text.
    Quote,
    /// A quote or a backslash, behind a backslash.
    Escaped,
    /// A character that names of values may have.
    NameCharacter,
    /// A name of a value that isn't too long.
    ShortName,
    /// `=`, behind a value's name.
    Equals,
    /// What a value may be.
    Value,
    /// A number of 32 bits.
    Number,
    /// What may stand behind `hex`.
    Bytes,
    /// A type, in parentheses.
    Kind,
    /// `)` and `:`, behind a type.
    Close,
    /// `:`, behind a type and its `)`.
    Colon,
    /// A byte.
    Byte,
    /// A character of one byte, in a text of REGEDIT4.
    PlainBytes,
    /// A comment, or the line's end, behind a value.
    Comment,
    /// The line's end, behind a key.
    End,
}

impl Display for Expected {
    fn fmt<W: fmt::Write>(&self, f: &mut Formatter<W>) -> fmt::Result {
        f.pad(self.words())
    }
}

impl Expected {
    ghost use Rattle.std.specs.Prelude.{◌≡◌};
    ghost use Rattle.reg_dotreg_reader.specs.LineStops.{is_root as is_root_of};
    ghost use Rattle.reg_dotreg_reader.specs.ToldLines.{words_of};

    /// Whether it is the root's name.
    pub fn is_root(self) -> bool
        ensures { result ≡ is_root_of self }
    {
        match self {
            Expected::Root => true,
            _ => false,
        }
    }

    /// Its words.
    pub fn words(self) -> &'static str
        ensures { result.now ≡ words_of self }
    {
        match self {
            Expected::Title => "'Windows Registry Editor Version 5.00' or 'REGEDIT4'",
            Expected::Line =>
                "a key in brackets, a value's name in quotes or @, or a comment behind ;",
            Expected::Key => "a key that is made, in brackets, above its values",
            Expected::Root => "the name of the hive's root",
            Expected::KeyCharacter => "a character of ASCII other than NUL",
            Expected::KeyName => "a key's name",
            Expected::ShortKeyName => "a key's name of at most 255 characters",
            Expected::Path => "at most 512 names in a path",
            Expected::Bracket => "] at the line's end",
            Expected::Quote => "a closing quote",
            Expected::Escaped => "a quote or a backslash behind a backslash",
            Expected::NameCharacter => "a character of ASCII other than NUL",
            Expected::ShortName => "a name of at most 16383 characters",
            Expected::Equals => "= behind the value's name",
            Expected::Value => "a text in quotes, dword:, hex:, hex(TYPE): or -",
            Expected::Number => "one to eight hexadecimal digits",
            Expected::Bytes => ": or (TYPE): behind hex",
            Expected::Kind => "a type of one to eight hexadecimal digits and )",
            Expected::Close => "): behind the type",
            Expected::Colon => ": behind the type",
            Expected::Byte => "a byte of one or two hexadecimal digits",
            Expected::PlainBytes => "bytes up to 7f, as the text is one of REGEDIT4",
            Expected::Comment => "a comment behind ; or the line's end",
            Expected::End => "nothing more in this line",
        }
    }
}

/// A line of a text that isn't understood.
#[derive(Debug, Drop)]
pub struct BadLine {
    /// Its number, from 1; of a value that goes on over several lines that of the first one.
    pub line: u64,
    /// The number of the line in which something other was expected: the same one, or one in which the value goes on.
    pub at: u64,
    /// Before which character of that line, from 1; one behind the last one at its end. A pair of surrogates is one character.
    pub column: u64,
    /// What was expected there.
    pub expected: Expected,
    /// What stands where the root's name was expected, up to the bracket that closes the key; no units where that wasn't expected.
    pub found: Units,
}
