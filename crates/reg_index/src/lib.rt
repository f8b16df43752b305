//! A key's subkeys, in lists of hashes in the order of their folded names: none, one list, or several under an index root.
//!
//! Its one contract: the lists have just the subkeys, in order and each with its hash, before and after each change; a search
//! tells exactly whether a name is there, and where. The functions work on an arena that they are lent and on a list's offset in
//! it. The key node that names the list is the caller's: nothing of it is written here, and of the subkeys only their names are
//! read.
//!
//! It stands on reg_records, reg_shape and reg_names. Its types are [`SubkeysIndex`], the subkeys as their key node names them,
//! [`Place`], where one of them stands, and [`IndexCells`], what one more takes.
//!
//! `finding` searches: for a place it looks at the last name first, and then halves the lists and one list. For a key alone it halves
//! the list only until few entries are left, and looks along their hashes, so that it reads fewer key nodes. `order` compares two names.
//! `plan` says which cells one more takes, `inserting` makes a gap and fills it, `splitting` parts a full list into two, and `removing`
//! closes up. `lengthening` gives the last list room for many more at once. `leaf` and `root` write a list's entries and the index
//! root's.
//!
//! Suhanov, Windows registry file format specification, section "Subkeys list".
#![tactic(auto)]

ghost use Rattle.std.specs.Prelude.{◌≡◌};

mod finding;
mod inserting;
mod leaf;
mod lengthening;
mod order;
mod plan;
mod removing;
mod root;
mod splitting;

pub use finding::{
    at, at_place, behind, find, find_key, key_behind, longest_name, place_at, place_behind,
};
pub use inserting::insert;
pub use lengthening::{lengthen, plan_longer};
pub use plan::{FIRST_HALF, FIRST_LIST_SIZE, SECOND_HALF, plan_insert};
pub use removing::remove;

/// A key's subkeys, as its key node names them.
#[derive(Clone, Copy, Debug, PartialEq, Eq)]
pub struct SubkeysIndex {
    /// How many subkeys there are, at most 60,000.
    pub count: u32,
    /// The offset of the cell of their list or index root; 0xFFFFFFFF where there are no subkeys.
    pub offset: u32,
}

/// Where a subkey stands or belongs.
#[derive(Clone, Copy, Debug, PartialEq, Eq)]
pub struct Place {
    /// The number of its list among the index root's, counted from 0; 0 where there is one list or none.
    pub list: u32,
    /// Its index in that list, counted from 0.
    pub index: u32,
}

/// A subkey: its place, and the offset of its key node.
#[derive(Clone, Copy, Debug)]
pub struct PlacedKey {
    /// Where it stands.
    pub place: Place,
    /// The offset of its key node.
    pub key: u32,
}

/// What an insert takes: the sizes of the cells as they are planned, or the cells that were carved for them.
#[derive(Clone, Copy, Debug, PartialEq, Eq)]
pub struct IndexCells {
    /// Of the list that the subkey comes into; where a full list gives way to two, of its first half.
    pub list: Option<u32>,
    /// Of the second half of a full list.
    pub second: Option<u32>,
    /// Of the index root.
    pub root: Option<u32>,
}

/// How many subkeys there are.
pub fn len(list: SubkeysIndex) -> u32
    ensures { result ≡ list.count }
{
    list.count
}
