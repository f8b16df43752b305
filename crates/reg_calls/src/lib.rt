//! A hive, which answers calls: the registry's configuration manager over one hive's bytes.
//!
//! Its one contract: a change is refused exactly by the rules and then changes nothing, or is told what is due and is one entry of
//! the journal more; tree, handles and pending watches are the journal's replay, the bytes spell that tree, and each session is handed
//! just the notices that the journal tells it. It stands on reg_tree, reg_handles, reg_notify, reg_journal, reg_callbacks and
//! reg_model. Its types are [`Hive`] and, with the shares of all sessions, [`SeatedHive`]; its faults are [`NewFault`], [`RunFault`] and
//! [`CutFault`].
//!
//! Where no handle is open, the journal can begin anew ([`Hive::cut`]): the tree as it stands is then its origin, the numbers go on, and
//! what was told stays told.
//!
//! A session calls by its share ([`Hive::seat`]). 1009 comes before all else, where the share's session has no seat or the share's count
//! isn't its row in the journal's book.
//!
//! Each call but Close asks the hive's callbacks ([`Hive::register`]): after its refusals by 6, 1018, 87, 5 for a right and 1450
//! for what is counted, and before all others. What the first of them answers that isn't 0 is then the answer.
//!
//! | Call | Right | Refused | Effect or answer | File |
//! |---|---|---|---|---|
//! | `OpenRoot` | none | 87 mask; 1450 handles, journal | a handle to the root | `open_root.rt` |
//! | `OpenKey` | none | 6; 1018; 87 path, mask; 1450 handles, journal; 2 no such key | a handle to the key | `open_key.rt` |
//! | `CreateKey` | none | 6; 1018; 87 path, mask, descriptor; 1450 handles, journal, 32 new, 512 deep, 60,000 subkeys, space | keys, handle | `create_key.rt` |
//! | `SetValue` | 2 | 6; 1018; 87 name, data; 5; 1450 journal, 16,384 values, space | the value, and the key's time | `set_value.rt` |
//! | `DeleteValue` | 2 | 6; 1018; 87 name; 5; 1450 journal; 2 no such value | the value gone, and the key's time | `delete_value.rt` |
//! | `DeleteKey` | none | 6; 1018; 87 path; 1450 journal; 2 no key; 5 subkeys, mark 8 | the key gone, its handles dead, its parent's time | `delete_key.rt` |
//! | `DeleteTree` | 0x10009, 0x1000B | 6; 1018; 87 path; 5; 1450 journal; 2 no key; 5 mark 8 | the same, with all keys below the key | `delete_tree.rt` |
//! | `SetSecurity` | 0x40000 | 6; 1018; 87 descriptor; 5; 1450 journal, space | the descriptor, and the key's time | `set_security.rt` |
//! | `Notify` | 0x10 | 6; 1018; 87 filter; 5; 1450 4,096 pending, journal | a watch of the key | `notify.rt` |
//! | `Close` | none | 6 | the handle gone | `close.rt` |
//! | `QueryValue` | 1 | 6; 1018; 87 name; 5; 2 no such value; 234 | type, size and bytes | `query_value.rt` |
//! | `EnumKey` | 8 | 6; 1018; 5; 259; 234 | a subkey's name and time | `enum_key.rt` |
//! | `EnumValue` | 1 | 6; 1018; 5; 259; 234 | a value's name, type, size and bytes | `enum_value.rt` |
//! | `QueryInfo` | 1 | 6; 1018; 5 | the key's numbers, largest lengths and time | `query_info.rt` |
//! | `GetSecurity` | 0x20000 | 6; 1018; 5; 122 | the descriptor | `get_security.rt` |
//!
//! [`Hive`] is the callbacks and a core (`hive_core`), which has the `store` (tree, handles, watches), the journal, and `quiet`, which
//! remembers by which handles changes ended no watch. `changes` and `queries` choose the file of a call.
//!
//! A change's file has its `admit`, which answers the refusal or what it found; its `announce`, where it may end watches, which says by
//! that what it does to them; and its `commit`, which takes just what was found and searches the tree no more. All watches are ended at
//! one place, in `announced.rt`, by what was announced. Where a path's text is copied, `find` makes all tests first, and `admit` copies it
//! behind them; so `cause.rt` tells the first refusal without memory. A question's file has its `answer`. 234, of a descriptor 122,
//! tells that the room is short, with the size. [`Hive::read_value`] and [`Hive::read_subkey`] answer a QueryValue and an EnumKey by the
//! caller's room, without a copy between.
//!
//! DeleteTree by the empty path asks 0x1000B and never answers 2: the handle's key stays, but loses all keys below it and its values;
//! its time is set where it had any of them.
//!
//! Want of memory is 8, in place of an acceptance (never of a Close), or of an answer that holds a name or bytes. Win32 registry
//! reference, of each call the function that its variant in reg_model names.
#![tactic(auto)]

mod announced;
mod asking;
mod cause;
mod changes;
mod close;
mod create_key;
mod cut;
mod delete_key;
mod delete_tree;
mod delete_value;
mod enum_key;
mod enum_value;
mod fronts;
mod get_security;
mod hive;
mod hive_core;
mod lack;
mod notify;
mod open_key;
mod open_root;
mod queries;
mod query_info;
mod query_value;
mod quiet;
mod refusal;
mod replies;
mod seated;
mod set_security;
mod set_value;
mod store;
mod value_copy;

pub use cut::CutFault;
pub use enum_key::KeyTold;
pub use hive::{Hive, NewFault, RunFault};
pub use query_value::{ValueTold, asked_room, size_in_32_bits};
pub use seated::{SeatedHive, apply_by, read_by};
