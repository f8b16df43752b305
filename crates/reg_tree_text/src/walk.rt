//! A key of a tree and those below it, one after another: each before those below it, and those right below one in the order of their
//! folded names.
ghost use Rattle.std.specs.Prelude.{◌≡◌, ◌++◌, ℕ, [], List, length, take, reverse, OnOk, IfOk};
ghost use Rattle.reg_heap.specs.Paths.{Path};
ghost use Rattle.reg_tree.specs.TreeKeys.{IsAt};
ghost use Rattle.reg_tree.specs.SubkeyWalk.{IsSubkeyAt};
ghost use Rattle.reg_tree_text.specs.DumpTexts.{Told};
ghost use Rattle.reg_tree_text.specs.Internal.Walking.{IsPending, ArePending, IsNoted, Goes, Stands, Advances, text_below};

use reg_tree::{Node, Subkey, Tree};
use std::alloc::{AllocError, Global};

/// A subkey of a key on the present path, which is still to come, as are those behind it.
#[derive(Clone, Copy, Debug)]
pub struct Pending {
    /// The key that it is right below.
    pub parent: Node,
    /// The subkey.
    pub subkey: Subkey,
    /// How long the text of the key's path is.
    pub front: usize,
}

/// A walk over a key and those below it, which stands at one of them.
#[derive(Drop)]
pub struct Walk {
    /// The key at which it stands.
    pub node: Node,
    /// The names that lead to it from the key at which the walk began, joined by backslashes.
    pub path: Vec<u8>,
    /// At most one for each key on its path.
    pub pending: Vec<Pending>,
}

/// Cuts a path's text back to a front, the text of a key's path, and goes on with the name of a key below it. No name is empty, so
/// only the key at which the walk began has an empty front.
fn descend(path: &mut Vec<u8>, front: usize, name: &[u8]) -> Result<(), AllocError>
    ensures { OnOk result (path.new.items ≡ text_below front (take front path.old.items) name.now) }
{
    path.truncate(front);
    if front > 0 {
        path.push(b'\\')?;
    }
    path.extend_from_slice(name)?;
    Ok(())
}

impl Walk {
    /// A walk that begins at a key, and stands there.
    pub fn new(alloc: Global, node: Node) -> Walk
        ensures node { result.node ≡ node }
        ensures path { result.path.items ≡ [] }
        ensures pending { result.pending.items ≡ [] }
    {
        Walk {
            node,
            path: Vec::new(alloc),
            pending: Vec::new(alloc),
        }
    }

    /// Notes the subkey behind a pending one as pending, if there is one.
    fn note_next(&mut self, tree: &Tree, pending: Pending) -> Result<(), AllocError>
        requires { (text : List ℕ) × (here : List Told) × IsPending tree.now text pending here }
        ensures same { self.new.path.items ≡ self.old.path.items }
        ensures noted { (p : Path) → (index : ℕ) → IsAt tree.now p pending.parent →
            IsSubkeyAt tree.now p pending.parent index pending.subkey →
            OnOk result (IsNoted tree.now p index pending (reverse self.old.pending.items) (reverse self.new.pending.items)) }
    {
        if let Some(subkey) = tree.next_subkey(pending.parent, pending.subkey) {
            self.pending.push(Pending { subkey, ..pending })?;
        }
        Ok(())
    }

    /// Goes to a pending subkey.
    fn enter(&mut self, tree: &Tree, pending: Pending) -> Result<(), AllocError>
        requires { (text : List ℕ) × (here : List Told) × IsPending tree.now text pending here }
        ensures { (here more : List Told) → IsPending tree.now self.old.path.items pending here →
            ArePending tree.now self.old.path.items pending.front (reverse self.old.pending.items) more →
            OnOk result (Goes tree.now self.new (here ++ more)) }
    {
        // No key is deeper than 512 names, and no name is empty, as this call's contract says.
        let _root = tree.root();
        self.note_next(tree, pending)?;
        let node = pending.subkey.node;
        descend(&mut self.path, pending.front, tree.name(node))?;
        self.node = node;
        Ok(())
    }

    /// Goes on to the last subkey that was noted as pending; `false` where there is none.
    fn retreat(&mut self, tree: &Tree) -> Result<bool, AllocError>
        requires { (more : List Told) ×
            ArePending tree.now self.old.path.items (length self.old.path.items) (reverse self.old.pending.items) more }
        ensures { (more : List Told) →
            ArePending tree.now self.old.path.items (length self.old.path.items) (reverse self.old.pending.items) more →
            IfOk result (λ moved. Advances tree.now self.new more moved) }
    {
        match self.pending.pop() {
            Some(pending) => {
                self.enter(tree, pending)?;
                Ok(true)
            }
            None => Ok(false),
        }
    }

    /// Goes on to the next key; `false` where there is none.
    pub fn advance(&mut self, tree: &Tree) -> Result<bool, AllocError>
        requires { (here : Told) × (rest : List Told) × Stands tree.now self.old here rest }
        ensures { (here : Told) → (rest : List Told) → Stands tree.now self.old here rest →
            IfOk result (λ moved. Advances tree.now self.new rest moved) }
    {
        match tree.first_subkey(self.node) {
            Some(subkey) => {
                let pending = Pending {
                    parent: self.node,
                    subkey,
                    front: self.path.len(),
                };
                self.enter(tree, pending)?;
                Ok(true)
            }
            None => self.retreat(tree),
        }
    }
}
