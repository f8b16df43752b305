//! Which word isn't understood.

use crate::typed::kinds::{DataForm, read_kind};
use std::alloc::{AllocError, Global};

/// The first of some words that isn't bytes in hexadecimal digits.
fn no_digits<'a>(words: &[&'a str]) -> Option<&'a str> {
    for word in words {
        let bytes = word.as_bytes();
        if bytes.len() % 2 == 1 || !bytes.iter().all(|byte| byte.is_ascii_hexdigit()) {
            return Some(*word);
        }
    }
    None
}

/// What is told of words that are no number of so many bits.
fn number_fault(
    alloc: Global,
    kind: &str,
    bits: u32,
    words: &[&str],
) -> Result<String, AllocError> {
    match words {
        [word] => format!(in alloc;
            "'{word}' is no number of {bits} bits, in decimal or behind 0x"
        ),
        _ => format!(in alloc; "'{kind}' takes one number as its data"),
    }
}

/// What is told of words that [`read_value`](crate::typed::read_value) doesn't understand: which of them, and what was wanted in its place.
pub fn value_fault(alloc: Global, kind: &str, words: &[&str]) -> Result<String, AllocError> {
    let Some(read) = read_kind(kind) else {
        return format!(in alloc;
            "'{kind}' is no type: sz, expand, multi, dword, qword, binary, none or a number"
        );
    };
    match read.form {
        DataForm::Text => format!(in alloc; "'{kind}' takes one word as its data"),
        DataForm::Texts => format!(in alloc; "a text of '{kind}' is empty"),
        DataForm::Small => number_fault(alloc, kind, 32, words),
        DataForm::Large => number_fault(alloc, kind, 64, words),
        DataForm::Digits => {
            let word = no_digits(words).unwrap_or("");
            format!(in alloc; "'{word}' isn't bytes of two hexadecimal digits each")
        }
    }
}
