//! GetSecurity: a key's security descriptor.
//!
//! Win32 registry reference, `RegGetKeySecurity`.
ghost use Rattle.std.specs.FinMap.{get};
ghost use Rattle.reg_heap.specs.Paths.{Path};
ghost use Rattle.reg_heap.specs.Edits.{descriptor_of};
ghost use Rattle.reg_model.specs.Replies.{security_told};
ghost use Rattle.reg_model.specs.declared.call.Query.TheVariants.{GetSecurity};
ghost use Rattle.reg_tree.specs.TreeKeys.{IsAt, IsThere};
ghost use Rattle.reg_calls.specs.Internal.Stores.{at, KnowsKeys};
ghost use Rattle.reg_calls.specs.Internal.Askings.{status_by};
ghost use Rattle.reg_calls.specs.Views.{IsReadBy, IsTold};
ghost use Rattle.reg_calls.specs.declared.store.JournalEnd.{JournalEnd};

use crate::asking::Asking;
use crate::store::Store;
use reg_callbacks::Callback;
use reg_model::rights::READ_CONTROL;
use reg_model::statuses::{ACCESS_DENIED, INSUFFICIENT_BUFFER, NOT_ENOUGH_MEMORY};
use reg_model::{AnswerBody, Bytes};
use reg_tree::{Node, Tree};
use std::alloc::Global;

/// The answer to a question for a key's descriptor: short where the room is below its size, for which no memory is taken.
fn descriptor_answer(alloc: Global, tree: &Tree, node: Node, room: u32) -> AnswerBody
    requires { IsThere tree.now node }
    ensures { (p : Path) → IsAt tree.now p node → IsTold (security_told (descriptor_of (get tree.now.tree p)) room) result }
{
    // Only for its clause `key`: the node's key is in the tree, of which the clauses of what follows speak.
    let _ = tree.name(node);
    let descriptor = tree.descriptor(node);
    let size = descriptor.len() as u32;
    if room < size {
        return AnswerBody::Short {
            status: INSUFFICIENT_BUFFER,
            kind: 0,
            size,
        };
    }
    match Bytes::from_slice(alloc, descriptor) {
        Ok(bytes) => AnswerBody::Security { bytes },
        Err(_) => AnswerBody::Refused {
            status: NOT_ENOUGH_MEMORY,
        },
    }
}

/// The answer to a GetSecurity: the descriptor's bytes, or its size where the room is short; or a refusal.
pub fn answer<C: Callback>(
    store: &Store,
    asking: &Asking<'_, C>,
    alloc: Global,
    session: u8,
    handle: u64,
    room: u32,
) -> AnswerBody
    requires { KnowsKeys store.now }
    ensures { (end : JournalEnd) → IsReadBy (status_by C.answers asking.now store.now session handle) (at end store.now) session (GetSecurity handle room) result }
{
    let key = match store.key_of(session, handle) {
        Ok(key) => key,
        Err(status) => return AnswerBody::Refused { status },
    };
    if key.mask & READ_CONTROL != READ_CONTROL {
        return AnswerBody::Refused {
            status: ACCESS_DENIED,
        };
    }
    match asking.ask(key.path) {
        Ok(()) => {}
        Err(status) => return AnswerBody::Refused { status },
    }
    descriptor_answer(alloc, &store.tree, key.node, room)
}
