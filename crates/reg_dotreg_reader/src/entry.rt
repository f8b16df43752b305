//! What a text asks for.

ghost use Rattle.std.specs.Prelude.{◌≡◌};

use reg_model::Bytes;

/// What an entry asks for.
#[derive(Debug, Drop)]
pub enum Entry {
    /// Make the key at a path below the root, where it isn't there (the empty path: the root), and go on with its values.
    Key(Bytes),
    /// Take the key away, with all that is below it.
    GoneKey(Bytes),
    /// Set a value of the key of the last `Key` entry.
    Value {
        /// The empty name is the default value's.
        name: Bytes,
        /// The type's number.
        kind: u32,
        /// Its data.
        bytes: Bytes,
    },
    /// Take a value of that key away.
    GoneValue(Bytes),
}

/// An entry, and where it stands.
#[derive(Debug, Drop)]
pub struct Numbered {
    /// The number of its line, from 1, or of the first of its lines.
    pub line: u64,
    /// What it asks for.
    pub entry: Entry,
}

impl Entry {
    ghost use Rattle.reg_dotreg_reader.specs.EntryMeanings.{is_key as is_key_of, takes_values as takes_values_of};

    /// Whether it is of a key.
    pub fn is_key(&self) -> bool
        ensures { result ≡ is_key_of self.now }
    {
        match self {
            Entry::Key(_) | Entry::GoneKey(_) => true,
            Entry::Value { .. } | Entry::GoneValue(_) => false,
        }
    }

    /// Whether values may stand behind it, where they may or may not before it.
    pub(crate) fn takes_values(&self, before: bool) -> bool
        ensures { result ≡ takes_values_of before self.now }
    {
        match self {
            Entry::Key(_) => true,
            Entry::GoneKey(_) => false,
            Entry::Value { .. } | Entry::GoneValue(_) => before,
        }
    }
}
