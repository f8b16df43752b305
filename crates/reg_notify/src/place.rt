//! A key's path as the table looks for it.
ghost use Rattle.std.specs.Prelude.{◌≡◌, ◌+◌, ◌≤◌, ℕ, [], IfOk, OnOk, true, vec_len, vec_capacity};
ghost use Rattle.reg_names.specs.Names.{path_of, is_path};
ghost use Rattle.reg_notify.specs.Internal.Keys.{lead_of, key_text, IsClean};
ghost use Rattle.reg_notify.specs.Internal.Places.{led};

use std::alloc::{AllocError, Global};
use std::marker::Model;

/// For the byte that ends a place, the class of a watch and its number.
const ROOM: usize = 10;

/// A key's path, in a form in which the table looks for the watches there, and above and below it, without memory of its own.
#[derive(Drop)]
pub struct Place {
    text: Vec<u8>,
}

impl Model for Place {
    ghost use Rattle.reg_heap.specs.Paths.{Path};
    ghost use Rattle.reg_names.specs.Names.{path_of as names_of};
    ghost use Rattle.reg_notify.specs.Tables.{coded_path};
    ghost use Rattle.reg_notify.specs.Internal.Places.{behind_first, IsPlace};

    ghost Value = { Path };

    ghost coded = { coded_path };

    ghost view = { λ p. names_of (behind_first p.text.items) };

    ghost invariant = { λ p. IsPlace p.text };
}

impl Place {
    /// The place of a folded path, as text. Its one fault is that memory was refused.
    pub fn new(alloc: Global, path: &[u8]) -> Result<Place, AllocError>
        requires { is_path path.now ≡ true }
        ensures { IfOk result (λ place. place ≡ path_of path.now) }
    {
        let mut text = Vec::with_capacity(alloc, path.len().saturating_add(1 + ROOM))?;
        lead(&mut text, path)?;
        text.reserve(ROOM)?;
        Ok(Place { text })
    }

    /// The text by which a watch of a class and a number is found here. Its one fault is that memory was refused.
    pub(crate) fn key(&self, class: u8, number: u64) -> Result<Vec<u8>, AllocError>
        ensures text { IfOk result (λ text. text.items ≡ key_text self.now class number) }
        ensures clean { IsClean self.now }
    {
        let mut text = self.text.clone()?;
        text.push(0)?;
        text.push(class)?;
        text.extend_from_slice(&number.to_be_bytes())?;
        Ok(text)
    }

    /// Its text.
    pub(crate) fn text(&self) -> &[u8]
        ensures { result.now ≡ lead_of self.now }
    {
        self.text.as_slice()
    }

    /// Its text, with room for ten bytes more.
    pub(crate) fn into_text(self) -> Vec<u8>
        ensures text { result.items ≡ lead_of self }
        ensures clean { IsClean self }
        ensures room { vec_len result + 2 ≤ vec_capacity result }
        ensures room_for_key { vec_len result + 10 ≤ vec_capacity result }
    {
        self.text
    }
}

/// Puts a path behind a backslash; the empty path is the root's and has no text.
fn lead(text: &mut Vec<u8>, path: &[u8]) -> Result<(), AllocError>
    requires { text.old.items ≡ [] }
    ensures { OnOk result (text.new.items ≡ led path.now) }
{
    if path.is_empty() {
        return Ok(());
    }
    text.push(b'\\')?;
    text.extend_from_slice(path)
}
