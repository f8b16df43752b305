//! EnumKey: a subkey of a key by its index.
//!
//! Win32 registry reference, `RegEnumKeyEx`.
ghost use Rattle.std.specs.Prelude.{◌≡◌, ℕ, IfOk, IfErr};
ghost use Rattle.std.specs.FinMap.{get};
ghost use Rattle.reg_heap.specs.Paths.{Path};
ghost use Rattle.reg_model.specs.Replies.{key_told as key_told_of};
ghost use Rattle.reg_model.specs.declared.call.Query.TheVariants.{EnumKey};
ghost use Rattle.reg_tree.specs.TreeKeys.{IsAt, IsThere};
ghost use Rattle.reg_calls.specs.Internal.Stores.{at, KnowsKeys};
ghost use Rattle.reg_calls.specs.Internal.Askings.{status_by};
ghost use Rattle.reg_calls.specs.Internal.RoomQuestions.{AnswersSubkeyAt};
ghost use Rattle.reg_model.specs.declared.answer.AnswerBody.TheVariants.{Refused};
ghost use Rattle.reg_calls.specs.Views.{IsReadBy, IsTold};
ghost use Rattle.reg_calls.specs.Rooms.{size_of, due_by, TellsKey};
ghost use Rattle.reg_calls.specs.declared.store.JournalEnd.{JournalEnd};

use crate::asking::Asking;
use crate::store::Store;
use reg_callbacks::Callback;
use reg_model::rights::ENUMERATE_SUB_KEYS;
use reg_model::statuses::{ACCESS_DENIED, MORE_DATA, NO_MORE_ITEMS, NOT_ENOUGH_MEMORY};
use reg_model::{AnswerBody, Bytes};
use reg_tree::{Node, Tree};
use std::alloc::Global;

/// A key as it is told to who enumerates: short where the room is below its name's length.
fn key_told(alloc: Global, tree: &Tree, node: Node, room: u32) -> AnswerBody
    requires { IsThere tree.now node }
    ensures { (p : Path) → IsAt tree.now p node → IsTold (key_told_of (get tree.now.tree p) room) result }
{
    let name = tree.name(node);
    let size = name.len() as u32;
    if room < size {
        return AnswerBody::Short {
            status: MORE_DATA,
            kind: 0,
            size,
        };
    }
    match Bytes::from_slice(alloc, name) {
        Ok(name) => AnswerBody::Key {
            name,
            time: tree.time(node),
        },
        Err(_) => AnswerBody::Refused {
            status: NOT_ENOUGH_MEMORY,
        },
    }
}

/// The key of a handle whose subkeys a session may enumerate, or the refusal of a question for one.
fn asked_key<C: Callback>(
    store: &Store,
    asking: &Asking<'_, C>,
    session: u8,
    handle: u64,
) -> Result<Node, u32>
    requires { KnowsKeys store.now }
    ensures asked { IfOk result (λ node. (p : Path) × IsAt store.now.tree p node
        × AnswersSubkeyAt (status_by C.answers asking.now store.now session handle) store.now session handle p) }
    ensures refused { IfErr result (λ status. (end : JournalEnd) → (index room : ℕ) →
        due_by (status_by C.answers asking.now store.now session handle) (at end store.now) session (EnumKey handle index room) ≡ Refused status) }
{
    let key = match store.key_of(session, handle) {
        Ok(key) => key,
        Err(status) => return Err(status),
    };
    if key.mask & ENUMERATE_SUB_KEYS != ENUMERATE_SUB_KEYS {
        return Err(ACCESS_DENIED);
    }
    match asking.ask(key.path) {
        Ok(()) => Ok(key.node),
        Err(status) => Err(status),
    }
}

/// The answer to an EnumKey: the subkey's name and last write time, or that the room is short; or a refusal.
pub fn answer<C: Callback>(
    store: &Store,
    asking: &Asking<'_, C>,
    alloc: Global,
    session: u8,
    handle: u64,
    index: u32,
    room: u32,
) -> AnswerBody
    requires { KnowsKeys store.now }
    ensures { (end : JournalEnd) → IsReadBy (status_by C.answers asking.now store.now session handle) (at end store.now) session (EnumKey handle index room) result }
{
    let node = match asked_key(store, asking, session, handle) {
        Ok(node) => node,
        Err(status) => return AnswerBody::Refused { status },
    };
    match store.tree.subkey(node, index) {
        Some(child) => key_told(alloc, &store.tree, child, room),
        None => AnswerBody::Refused {
            status: NO_MORE_ITEMS,
        },
    }
}

/// A status, with the size of a subkey's name, and the subkey's time.
#[derive(Clone, Copy, Debug, PartialEq, Eq)]
pub struct KeyTold {
    /// 0, or why the question was refused; 234 where the room is too short.
    pub status: u32,
    /// The size of the name in bytes, with 0 and 234.
    pub size: u32,
    /// When the subkey was last written, in units of 100 ns since 1601, with 0.
    pub time: u64,
}

impl KeyTold {
    /// No subkey, by a refusal.
    pub fn refused(status: u32) -> KeyTold
        ensures { result ≡ record { status = status; size = 0; time = 0 } }
    {
        KeyTold {
            status,
            size: 0,
            time: 0,
        }
    }
}

/// A key as it is told to who enumerates, with its name written over the front of a room that has place for it.
fn tell_key(tree: &Tree, node: Node, room: &mut [u8]) -> KeyTold
    requires { IsThere tree.now node }
    ensures { (p : Path) → IsAt tree.now p node → TellsKey (key_told_of (get tree.now.tree p) (size_of room.old)) result room.old room.new }
{
    let name = tree.name(node);
    if room.len() < name.len() {
        return KeyTold {
            status: MORE_DATA,
            size: name.len() as u32,
            time: 0,
        };
    }
    room[..name.len()].copy_from_slice(name);
    KeyTold {
        status: 0,
        size: name.len() as u32,
        time: tree.time(node),
    }
}

/// The answer to an EnumKey, with the subkey's name written over the front of a room. It takes no memory.
pub fn answer_into<C: Callback>(
    store: &Store,
    asking: &Asking<'_, C>,
    session: u8,
    handle: u64,
    index: u32,
    room: &mut [u8],
) -> KeyTold
    requires { KnowsKeys store.now }
    ensures { (end : JournalEnd) → TellsKey (due_by (status_by C.answers asking.now store.now session handle) (at end store.now) session
        (EnumKey handle index (size_of room.old))) result room.old room.new }
{
    let node = match asked_key(store, asking, session, handle) {
        Ok(node) => node,
        Err(status) => return KeyTold::refused(status),
    };
    match store.tree.subkey(node, index) {
        Some(child) => tell_key(&store.tree, child, room),
        None => KeyTold::refused(NO_MORE_ITEMS),
    }
}
