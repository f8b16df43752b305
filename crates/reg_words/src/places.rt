//! Where a pattern is searched for, as it is written.

ghost use Rattle.std.specs.Prelude.{position, ◌==◌, ◌≡◌, ◌<◌, ◌+◌, ◌∷◌, [], MatchOption, drop, length, take};
ghost use Rattle.reg_words.specs.PlaceLists.{both as places_of_both, parts_of, place_of as place_by_word, places_in};

use crate::Places;

/// No place.
const NOWHERE: Places = Places {
    keys: false,
    names: false,
    texts: false,
    paths: false,
    bytes: false,
};

/// A place by its word; `None` where that is none's.
fn place_of(word: &[u8]) -> Option<Places>
    ensures { result ≡ place_by_word word.now }
{
    if word == b"keys".as_slice() {
        return Some(Places {
            keys: true,
            ..NOWHERE
        });
    }
    if word == b"names".as_slice() {
        return Some(Places {
            names: true,
            ..NOWHERE
        });
    }
    if word == b"data".as_slice() {
        return Some(Places {
            texts: true,
            ..NOWHERE
        });
    }
    if word == b"paths".as_slice() {
        return Some(Places {
            paths: true,
            ..NOWHERE
        });
    }
    if word == b"bytes".as_slice() {
        return Some(Places {
            bytes: true,
            ..NOWHERE
        });
    }
    None
}

/// The places of two.
fn both(one: Places, other: Places) -> Places
    ensures { result ≡ places_of_both one other }
{
    Places {
        keys: one.keys || other.keys,
        names: one.names || other.names,
        texts: one.texts || other.texts,
        paths: one.paths || other.paths,
        bytes: one.bytes || other.bytes,
    }
}

/// Where the first comma stands.
fn first_comma(text: &[u8]) -> Option<usize>
    ensures { result ≡ position (λ letter. letter == 44) text.now }
{
    text.iter().position(|letter| *letter == b',')
}

/// Where the first part of a text ends, if there are others behind it.
pub fn comma_in(text: &[u8]) -> Option<usize>
    ensures { MatchOption result (parts_of text.now ≡ text.now ∷ [])
        (λ at. (at < length text.now) × (parts_of text.now ≡ take at text.now ∷ parts_of (drop (at + 1) text.now))) }
{
    first_comma(text)
}

/// The places that a text names, parted by commas; `None` where a part is no place's word.
pub fn read_places(text: &[u8]) -> Option<Places>
    ensures { result ≡ places_in text.now }
{
    let mut places = NOWHERE;
    let mut rest = text;
    while let Some(at) = comma_in(rest) {
        places = both(places, place_of(&rest[..at])?);
        rest = &rest[at + 1..];
    }
    Some(both(places, place_of(rest)?))
}

/// The first word of a text, parted by commas, that is no place's.
pub fn wrong_word(text: &str) -> &str {
    for word in text.split(',') {
        if place_of(word.as_bytes()).is_none() {
            return word;
        }
    }
    text
}
