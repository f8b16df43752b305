//! EnumValue: a value of a key by its index.
//!
//! Win32 registry reference, `RegEnumValue`.
ghost use Rattle.std.specs.Prelude.{◌≡◌, slice_get};
ghost use Rattle.reg_heap.specs.Paths.{Path};
ghost use Rattle.reg_heap.specs.Edits.{values_at};
ghost use Rattle.reg_model.specs.Replies.{member_told as member_told_of};
ghost use Rattle.reg_model.specs.declared.call.Query.TheVariants.{EnumValue};
ghost use Rattle.reg_tree.specs.TreeKeys.{IsAt, IsThere};
ghost use Rattle.reg_calls.specs.Internal.Stores.{at, KnowsKeys};
ghost use Rattle.reg_calls.specs.Internal.Askings.{status_by};
ghost use Rattle.reg_calls.specs.Views.{IsReadBy, IsTold};
ghost use Rattle.reg_calls.specs.declared.store.JournalEnd.{JournalEnd};

use crate::asking::Asking;
use crate::store::Store;
use crate::value_copy::copy_value;
use reg_callbacks::Callback;
use reg_model::rights::QUERY_VALUE;
use reg_model::statuses::{ACCESS_DENIED, MORE_DATA, NO_MORE_ITEMS, NOT_ENOUGH_MEMORY};
use reg_model::{AnswerBody, Bytes};
use reg_tree::{Node, Tree};
use std::alloc::Global;

/// Whether a room is given and below a size.
fn is_short(room: Option<u32>, size: u32) -> bool
    ensures { result ≡ Rattle.reg_model.specs.Replies.is_short room size }
{
    match room {
        Some(room) => room < size,
        None => false,
    }
}

/// The value at an index as it is told to who enumerates: short where either room is.
fn member_told(
    alloc: Global,
    tree: &Tree,
    node: Node,
    index: u32,
    name_room: u32,
    room: Option<u32>,
) -> AnswerBody
    requires { IsThere tree.now node }
    ensures { (p : Path) → IsAt tree.now p node → IsTold (member_told_of (slice_get (values_at tree.now.tree p) index) name_room room) result }
{
    let Some(value) = tree.value(node, index) else {
        return AnswerBody::Refused {
            status: NO_MORE_ITEMS,
        };
    };
    let kind = value.kind;
    let size = value.size;
    if (name_room as usize) < value.name.len() || is_short(room, size) {
        return AnswerBody::Short {
            status: MORE_DATA,
            kind,
            size,
        };
    }
    let Ok(name) = Bytes::from_slice(alloc, value.name) else {
        return AnswerBody::Refused {
            status: NOT_ENOUGH_MEMORY,
        };
    };
    let Some(_) = room else {
        return AnswerBody::Member {
            name,
            kind,
            size,
            bytes: None,
        };
    };
    match copy_value(alloc, tree, node, index, size) {
        Ok(bytes) => AnswerBody::Member {
            name,
            kind,
            size,
            bytes: Some(bytes),
        },
        Err(_) => AnswerBody::Refused {
            status: NOT_ENOUGH_MEMORY,
        },
    }
}

/// The answer to an EnumValue: the value's name, type, size and bytes, or its size alone, or that a room is short; or a refusal.
pub fn answer<C: Callback>(
    store: &Store,
    asking: &Asking<'_, C>,
    alloc: Global,
    session: u8,
    handle: u64,
    index: u32,
    name_room: u32,
    room: Option<u32>,
) -> AnswerBody
    requires { KnowsKeys store.now }
    ensures { (end : JournalEnd) → IsReadBy (status_by C.answers asking.now store.now session handle) (at end store.now) session (EnumValue handle index name_room room) result }
{
    let key = match store.key_of(session, handle) {
        Ok(key) => key,
        Err(status) => return AnswerBody::Refused { status },
    };
    if key.mask & QUERY_VALUE != QUERY_VALUE {
        return AnswerBody::Refused {
            status: ACCESS_DENIED,
        };
    }
    match asking.ask(key.path) {
        Ok(()) => {}
        Err(status) => return AnswerBody::Refused { status },
    }
    member_told(alloc, &store.tree, key.node, index, name_room, room)
}
