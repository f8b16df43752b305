//! Which names the values of one key may have, so that a new value isn't looked for among all that the key has.
ghost use Rattle.std.specs.Prelude.{◌≡◌, ℕ, List, Some, None, true, false, OnErr};
ghost use Rattle.reg_heap.specs.Edits.{values_at};
ghost use Rattle.reg_tree.specs.TreeKeys.{tree_in};
ghost use Rattle.reg_tree.specs.Internal.NamesSeen.{may_have, HasNoted};
ghost use Rattle.reg_tree.specs.Internal.TreeInvariant.{IsHere};

use crate::values;
use reg_arena::Arena;
use reg_names::name_hash;
use std::alloc::{AllocError, Global};
use std::collections::HashSet;

/// How many values a key has at least where their names are noted. Fewer are searched as fast as noted.
const MANY_VALUES: u32 = 64;

/// How many values were set on a key at least, one after another, before the names of all are noted. So many searches cost as much.
const MANY_TURNS: u32 = 32;

/// The names of the values of one key, by their hashes: of the key on which values are being set. No answer depends on them; they
/// only spare a search for a name that no value has.
#[derive(Drop)]
pub struct NamesSeen {
    /// The key the names of whose values are all noted.
    noted: Option<u32>,
    /// The key on which a value was set last, if nothing else was changed since.
    last: Option<u32>,
    /// How many values were set there before that one, without another change between.
    turns: u32,
    /// The hashes of the names.
    hashes: HashSet<u32>,
}

/// How many values were set on a key before this one, of those that were before the last: one more where it is the same key.
fn next_turn(turns: u32, is_again: bool) -> u32 {
    if is_again { turns.saturating_add(1) } else { 0 }
}

impl NamesSeen {
    /// The names of no key.
    pub fn new(alloc: Global) -> NamesSeen
        ensures { result.noted ≡ None }
    {
        NamesSeen {
            noted: None,
            last: None,
            turns: 0,
            hashes: HashSet::new(alloc),
        }
    }

    /// Notes no key any more, as before each change but the set of a value.
    pub fn forget(&mut self)
        ensures { self.new.noted ≡ None }
    {
        self.last = None;
        self.noted = None;
    }

    /// Whether it is known without a search that a key has no value of that name.
    pub fn lacks(&self, key: u32, name: &[u8]) -> bool
        ensures noted { result ≡ true → self.now.noted ≡ Some key }
        ensures lacks { result ≡ true → may_have self.now name.now ≡ false }
    {
        self.noted == Some(key) && !self.hashes.contains(&name_hash(name))
    }

    /// Gets ready for a value of that name to be set on a key: notes the name where the key is noted. Where it isn't, it is noted with
    /// all names that it has, once it has many values and many were set on it one after another. Where memory is refused, no key is
    /// noted.
    pub fn expect(&mut self, arena: &Arena, key: u32, name: &[u8]) -> Result<(), AllocError>
        requires { IsHere arena.now.bytes key }
        ensures err { OnErr result (self.new.noted ≡ None) }
        ensures noted { (other : ℕ) → self.new.noted ≡ Some other → other ≡ key }
        ensures expected { (other : ℕ) → self.new.noted ≡ Some other → may_have self.new name.now ≡ true }
        ensures kept { (t : IsHere arena.now.bytes key) →
            HasNoted self.old key (values_at (tree_in arena.now.bytes t.root) t.path) →
            HasNoted self.new key (values_at (tree_in arena.now.bytes t.root) t.path) }
    {
        if self.noted != Some(key) {
            self.turn_to(arena, key)?;
        }
        if self.noted.is_some() {
            self.note(name)?;
        }
        Ok(())
    }

    /// Turns to a key on which a value is to be set.
    fn turn_to(&mut self, arena: &Arena, key: u32) -> Result<(), AllocError>
        requires { IsHere arena.now.bytes key }
        ensures err { OnErr result (self.new.noted ≡ None) }
        ensures noted { (other : ℕ) → self.new.noted ≡ Some other → other ≡ key }
        ensures all { (t : IsHere arena.now.bytes key) → HasNoted self.new key (values_at (tree_in arena.now.bytes t.root) t.path) }
    {
        let is_again = self.last == Some(key);
        self.turns = next_turn(self.turns, is_again);
        self.noted = None;
        self.last = Some(key);
        if self.turns >= MANY_TURNS && values::count(arena, key) >= MANY_VALUES {
            self.note_all(arena, key)?;
        }
        Ok(())
    }

    /// Notes the names of all values of a key.
    fn note_all(&mut self, arena: &Arena, key: u32) -> Result<(), AllocError>
        requires { IsHere arena.now.bytes key }
        ensures err { OnErr result (self.new.noted ≡ None) }
        ensures noted { (other : ℕ) → self.new.noted ≡ Some other → other ≡ key }
        ensures all { (t : IsHere arena.now.bytes key) → HasNoted self.new key (values_at (tree_in arena.now.bytes t.root) t.path) }
    {
        self.hashes.clear();
        self.noted = Some(key);
        for index in 0..values::count(arena, key) {
            match values::at(arena, key, index) {
                Some(value) => self.note(value.name)?,
                None => unreachable!(),
            }
        }
        Ok(())
    }

    /// Notes a name of the key that is noted. Where memory is refused, no key is noted any more.
    fn note(&mut self, name: &[u8]) -> Result<(), AllocError>
        ensures err { OnErr result (self.new.noted ≡ None) }
        ensures noted { (key : ℕ) → self.new.noted ≡ Some key → self.old.noted ≡ Some key }
        ensures expected { (key : ℕ) → self.new.noted ≡ Some key → may_have self.new name.now ≡ true }
        ensures kept { (other : List ℕ) → may_have self.old other ≡ true → may_have self.new other ≡ true }
    {
        match self.hashes.insert(name_hash(name)) {
            Ok(_) => Ok(()),
            Err(_) => {
                self.noted = None;
                Err(AllocError)
            }
        }
    }
}
