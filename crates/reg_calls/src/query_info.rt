//! QueryInfo: a key as it stands, its subkeys and values counted.
//!
//! Win32 registry reference, `RegQueryInfoKey`.
ghost use Rattle.std.specs.Prelude.{◌≡◌};
ghost use Rattle.reg_heap.specs.Paths.{Path};
ghost use Rattle.reg_model.specs.Replies.{info_told};
ghost use Rattle.reg_model.specs.declared.call.Query.TheVariants.{QueryInfo};
ghost use Rattle.reg_tree.specs.TreeKeys.{IsAt, IsThere};
ghost use Rattle.reg_calls.specs.Internal.Stores.{at, KnowsKeys};
ghost use Rattle.reg_calls.specs.Internal.Askings.{status_by};
ghost use Rattle.reg_calls.specs.Views.{IsReadBy};
ghost use Rattle.reg_calls.specs.declared.store.JournalEnd.{JournalEnd};

use crate::asking::Asking;
use crate::store::Store;
use reg_callbacks::Callback;
use reg_model::AnswerBody;
use reg_model::rights::QUERY_VALUE;
use reg_model::statuses::ACCESS_DENIED;
use reg_tree::{Node, Tree};

/// What is told of a key as it stands.
fn info(tree: &Tree, node: Node) -> AnswerBody
    requires { IsThere tree.now node }
    ensures { (p : Path) → IsAt tree.now p node → result ≡ info_told tree.now.tree p }
{
    // Only for its clause `key`: the node's key is in the tree, of which the clauses of what follows speak.
    let _ = tree.name(node);
    let largest = tree.largest_values(node);
    AnswerBody::Info {
        subkeys: tree.subkeys(node),
        longest_key: tree.longest_subkey_name(node),
        values: tree.values(node),
        longest_value: largest.name,
        largest: largest.size,
        security: tree.descriptor(node).len() as u32,
        time: tree.time(node),
    }
}

/// The answer to a QueryInfo: what is told of the key, or a refusal.
pub fn answer<C: Callback>(
    store: &Store,
    asking: &Asking<'_, C>,
    session: u8,
    handle: u64,
) -> AnswerBody
    requires { KnowsKeys store.now }
    ensures { (end : JournalEnd) → IsReadBy (status_by C.answers asking.now store.now session handle) (at end store.now) session (QueryInfo handle) result }
{
    let key = match store.key_of(session, handle) {
        Ok(key) => key,
        Err(status) => return AnswerBody::Refused { status },
    };
    if key.mask & QUERY_VALUE != QUERY_VALUE {
        return AnswerBody::Refused {
            status: ACCESS_DENIED,
        };
    }
    match asking.ask(key.path) {
        Ok(()) => {}
        Err(status) => return AnswerBody::Refused { status },
    }
    info(&store.tree, key.node)
}
