//! A key with its values, gathered for JSON.
ghost use Rattle.std.specs.Prelude.{◌≡◌, IfOk, string_bytes};
ghost use Rattle.serde_json.specs.Written.{compact_text};
ghost use Rattle.reg_tables.specs.Internal.Entries.{key_view};

use crate::form::ValueForm;
use serde::{Described, Serialize, Serializer};
use std::alloc::{AllocError, Global};

/// A value.
#[derive(Drop)]
pub struct ValueEntry<'a> {
    pub name: &'a str,
    pub kind: u32,
    pub form: ValueForm,
}

/// A key: the names that lead to it, joined by backslashes, its time and marks, its class as two digits a byte, its descriptor's text, and
/// its values.
#[derive(Drop)]
pub struct KeyEntry<'a> {
    pub path: &'a str,
    pub time: String,
    pub marks: u16,
    pub class: String,
    pub security: String,
    pub values: Vec<ValueEntry<'a>>,
}

impl Described for ValueEntry<'_> {
    ghost use Rattle.serde_json.specs.Events.{SendsValue};
    ghost use Rattle.reg_tables.specs.Internal.Entries.{value_view};

    ghost writes = { λ e. SendsValue (value_view e) };
}

impl Serialize for ValueEntry<'_> {
    fn serialize<S: Serializer>(&self, out: &mut S) -> Result<(), S::Error> {
        out.begin_map(Some(3))?;
        out.key("name")?;
        out.str(self.name)?;
        out.key("type")?;
        out.u64(u64::from(self.kind))?;
        out.key("data")?;
        self.form.serialize(out)?;
        out.end_map()
    }
}

impl Described for KeyEntry<'_> {
    ghost use Rattle.serde_json.specs.Events.{SendsValue};

    ghost writes = { λ e. SendsValue (key_view e) };
}

impl Serialize for KeyEntry<'_> {
    fn serialize<S: Serializer>(&self, out: &mut S) -> Result<(), S::Error> {
        out.begin_map(Some(6))?;
        out.key("path")?;
        out.str(self.path)?;
        out.key("time")?;
        out.str(self.time.as_str())?;
        out.key("marks")?;
        out.u64(u64::from(self.marks))?;
        out.key("class")?;
        out.str(self.class.as_str())?;
        out.key("security")?;
        out.str(self.security.as_str())?;
        out.key("values")?;
        self.values.serialize(out)?;
        out.end_map()
    }
}

/// A key's text.
pub fn entry_text(alloc: Global, entry: &KeyEntry<'_>) -> Result<String, AllocError>
    ensures { IfOk result (λ text. string_bytes text ≡ compact_text (key_view entry.now)) }
{
    match serde_json::to_string(alloc, entry) {
        Ok(text) => Ok(text),
        Err(_) => Err(AllocError),
    }
}
