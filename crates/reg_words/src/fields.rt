//! What `diff` passes over, as it is written.

ghost use Rattle.std.specs.Prelude.{◌≡◌};
ghost use Rattle.reg_words.specs.FieldLists.{both_fields, field_of as field_by_word, ignored_in};

use crate::Ignored;
use crate::places::comma_in;

/// Nothing.
pub const NOTHING: Ignored = Ignored {
    time: false,
    security: false,
    order: false,
    class: false,
    marks: false,
};

/// What a word names; `None` where it names nothing.
fn field_of(word: &[u8]) -> Option<Ignored>
    ensures { result ≡ field_by_word word.now }
{
    if word == b"time".as_slice() {
        return Some(Ignored {
            time: true,
            ..NOTHING
        });
    }
    if word == b"security".as_slice() {
        return Some(Ignored {
            security: true,
            ..NOTHING
        });
    }
    if word == b"order".as_slice() {
        return Some(Ignored {
            order: true,
            ..NOTHING
        });
    }
    if word == b"class".as_slice() {
        return Some(Ignored {
            class: true,
            ..NOTHING
        });
    }
    if word == b"marks".as_slice() {
        return Some(Ignored {
            marks: true,
            ..NOTHING
        });
    }
    None
}

/// What two name.
fn both(one: Ignored, other: Ignored) -> Ignored
    ensures { result ≡ both_fields one other }
{
    Ignored {
        time: one.time || other.time,
        security: one.security || other.security,
        order: one.order || other.order,
        class: one.class || other.class,
        marks: one.marks || other.marks,
    }
}

/// What a text names, parted by commas; `None` where a part names nothing.
pub fn read_ignored(text: &[u8]) -> Option<Ignored>
    ensures { result ≡ ignored_in text.now }
{
    let mut ignored = NOTHING;
    let mut rest = text;
    while let Some(at) = comma_in(rest) {
        ignored = both(ignored, field_of(&rest[..at])?);
        rest = &rest[at + 1..];
    }
    Some(both(ignored, field_of(rest)?))
}

/// The first word of a text, parted by commas, that names nothing.
pub fn wrong_field(text: &str) -> &str {
    for word in text.split(',') {
        if field_of(word.as_bytes()).is_none() {
            return word;
        }
    }
    text
}
