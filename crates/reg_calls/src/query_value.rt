//! QueryValue: a value of a key by its name.
//!
//! Win32 registry reference, `RegQueryValueEx`.
ghost use Rattle.std.specs.Prelude.{◌≡◌, ◌<◌, ◌≤◌, ◌⊎◌, ℕ, Option, Some, IfOk, IfErr, true, false, length, slice_get};
ghost use Rattle.reg_heap.specs.Paths.{Path, Member};
ghost use Rattle.reg_heap.specs.Edits.{values_at};
ghost use Rattle.reg_model.specs.Replies.{value_told};
ghost use Rattle.reg_model.specs.declared.call.Query.TheVariants.{QueryValue};
ghost use Rattle.reg_tree.specs.TreeKeys.{IsAt};
ghost use Rattle.reg_calls.specs.Internal.Stores.{at, KnowsKeys};
ghost use Rattle.reg_calls.specs.Internal.Askings.{status_by};
ghost use Rattle.reg_calls.specs.Internal.RoomQuestions.{AnswersValueAt};
ghost use Rattle.reg_model.specs.declared.answer.AnswerBody.TheVariants.{Refused};
ghost use Rattle.reg_calls.specs.Views.{IsReadBy, IsTold};
ghost use Rattle.reg_calls.specs.Rooms.{size_of, asked_of, due_by, TellsValue};
ghost use Rattle.reg_calls.specs.declared.store.JournalEnd.{JournalEnd};

use crate::asking::Asking;
use crate::store::Store;
use crate::value_copy::copy_value;
use reg_callbacks::Callback;
use reg_model::AnswerBody;
use reg_model::rights::QUERY_VALUE;
use reg_model::statuses::{
    ACCESS_DENIED, FILE_NOT_FOUND, INVALID_PARAMETER, MORE_DATA, NOT_ENOUGH_MEMORY,
};
use reg_names::check_value_name;
use reg_tree::{Node, Tree, ValueFound};
use std::alloc::Global;

/// The answer to a question for a value of a key: short where the room is below its size.
fn value_answer(
    alloc: Global,
    tree: &Tree,
    node: Node,
    value: ValueFound,
    room: Option<u32>,
) -> AnswerBody
    requires value { (p : Path) × IsAt tree.now p node × (value.index < length (values_at tree.now.tree p)) }
    requires size { (p : Path) → IsAt tree.now p node → (member : Member) →
        slice_get (values_at tree.now.tree p) value.index ≡ Some member → value.size ≡ length member.bytes }
    ensures { (p : Path) → IsAt tree.now p node → (member : Member) →
        slice_get (values_at tree.now.tree p) value.index ≡ Some member → value.kind ≡ member.kind →
        value.size ≡ length member.bytes → IsTold (value_told (Some member) room) result }
{
    let ValueFound { index, kind, size } = value;
    let Some(room) = room else {
        return AnswerBody::Value {
            kind,
            size,
            bytes: None,
        };
    };
    if room < size {
        return AnswerBody::Short {
            status: MORE_DATA,
            kind,
            size,
        };
    }
    match copy_value(alloc, tree, node, index, size) {
        Ok(bytes) => AnswerBody::Value {
            kind,
            size,
            bytes: Some(bytes),
        },
        Err(_) => AnswerBody::Refused {
            status: NOT_ENOUGH_MEMORY,
        },
    }
}

/// The key of a handle by which a session may ask for a value of that name, or the refusal of a question for it.
fn asked_key<C: Callback>(
    store: &Store,
    asking: &Asking<'_, C>,
    session: u8,
    handle: u64,
    name: &[u8],
) -> Result<Node, u32>
    requires { KnowsKeys store.now }
    ensures asked { IfOk result (λ node. (p : Path) × IsAt store.now.tree p node
        × AnswersValueAt (status_by C.answers asking.now store.now session handle) store.now session handle name.now p) }
    ensures refused { IfErr result (λ status. (end : JournalEnd) → (room : Option ℕ) →
        due_by (status_by C.answers asking.now store.now session handle) (at end store.now) session (QueryValue handle name.now room) ≡ Refused status) }
{
    let key = match store.key_of(session, handle) {
        Ok(key) => key,
        Err(status) => return Err(status),
    };
    if check_value_name(name).is_err() {
        return Err(INVALID_PARAMETER);
    }
    if key.mask & QUERY_VALUE != QUERY_VALUE {
        return Err(ACCESS_DENIED);
    }
    match asking.ask(key.path) {
        Ok(()) => Ok(key.node),
        Err(status) => Err(status),
    }
}

/// The answer to a QueryValue: the value's type, size and bytes, or its size alone; or a refusal.
pub fn answer<C: Callback>(
    store: &Store,
    asking: &Asking<'_, C>,
    alloc: Global,
    session: u8,
    handle: u64,
    name: &[u8],
    room: Option<u32>,
) -> AnswerBody
    requires { KnowsKeys store.now }
    ensures { (end : JournalEnd) → IsReadBy (status_by C.answers asking.now store.now session handle) (at end store.now) session (QueryValue handle name.now room) result }
{
    let node = match asked_key(store, asking, session, handle, name) {
        Ok(node) => node,
        Err(status) => return AnswerBody::Refused { status },
    };
    match store.tree.find_value(node, name) {
        Some(value) => value_answer(alloc, &store.tree, node, value, room),
        None => AnswerBody::Refused {
            status: FILE_NOT_FOUND,
        },
    }
}

/// A status, with a value's type and the size of its data.
#[derive(Clone, Copy, Debug, PartialEq, Eq)]
pub struct ValueTold {
    /// 0, or why the question was refused; 234 where the room is too short.
    pub status: u32,
    /// The value's type, with 0 and 234.
    pub kind: u32,
    /// The size of its data in bytes, with 0 and 234.
    pub size: u32,
}

impl ValueTold {
    /// No value, by a refusal.
    pub fn refused(status: u32) -> ValueTold
        ensures { result ≡ record { status = status; kind = 0; size = 0 } }
    {
        ValueTold {
            status,
            kind: 0,
            size: 0,
        }
    }
}

/// How many bytes there are, at most 4,294,967,295.
pub fn size_in_32_bits(bytes: &[u8]) -> u32
    ensures { result ≡ size_of bytes.now }
{
    bytes.len().min(4_294_967_295) as u32
}

/// How many bytes a room asks for: one of no byte asks for the size alone.
pub fn asked_room(room: &[u8]) -> Option<u32>
    ensures { result ≡ asked_of room.now }
{
    if room.is_empty() {
        return None;
    }
    Some(size_in_32_bits(room))
}

/// Whether bytes are asked for, and a room of this length is too short for so many.
fn is_short(room: usize, size: u32) -> bool
    ensures short { result ≡ true → (0 < room) × (room < size) }
    ensures enough { result ≡ false → (room ≡ 0) ⊎ (size ≤ room) }
    ensures word { size ≤ 4294967295 }
{
    room > 0 && room < size as usize
}

/// The answer to a QueryValue, with the value's bytes written over the front of a room. It takes no memory.
pub fn answer_into<C: Callback>(
    store: &Store,
    asking: &Asking<'_, C>,
    session: u8,
    handle: u64,
    name: &[u8],
    room: &mut [u8],
) -> ValueTold
    requires { KnowsKeys store.now }
    ensures { (end : JournalEnd) → TellsValue (due_by (status_by C.answers asking.now store.now session handle) (at end store.now) session
        (QueryValue handle name.now (asked_of room.old))) result room.old room.new }
{
    let node = match asked_key(store, asking, session, handle, name) {
        Ok(node) => node,
        Err(status) => return ValueTold::refused(status),
    };
    let long = room.len();
    let Some(value) = store.tree.find_value_into(node, name, room) else {
        return ValueTold::refused(FILE_NOT_FOUND);
    };
    let ValueFound {
        index: _,
        kind,
        size,
    } = value;
    if is_short(long, size) {
        return ValueTold {
            status: MORE_DATA,
            kind,
            size,
        };
    }
    ValueTold {
        status: 0,
        kind,
        size,
    }
}
