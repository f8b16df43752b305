//! The subkeys of a key that the walk comes to, as lists that are to be read.
//!
//! Suhanov, Windows registry file format specification, section "Subkeys list".

ghost use Rattle.std.specs.Prelude.{◌≡◌, ◌≤◌, ℕ, List, [], suc, IfErr};
ghost use Rattle.reg_arena.specs.Cells.{cell_at};
ghost use Rattle.reg_tree_image.specs.WalkSteps.{Seen, Step};
ghost use Rattle.reg_tree_image.specs.LoadingWalk.{list_from as list_step};
ghost use Rattle.reg_tree_image.specs.Internal.CellStates.{IsTable, unnamed};
ghost use Rattle.reg_tree_image.specs.Internal.FaultSpots.{NoList};
ghost use Rattle.reg_tree_image.specs.Internal.ReaderOutcomes.{Fails};
ghost use Rattle.reg_tree_image.specs.Internal.ListParts.{entries_in};
ghost use Rattle.reg_tree_image.specs.Internal.BegunKeys.{keys_of, lists_of, Lists};

use crate::LoadFault;
use crate::list_part::ListPart;
use crate::lists::list_from;
use crate::table::CellTable;
use reg_records::ListForm;

/// The head of a list without entries: where a key has no subkeys, and where it has no index root or no list of keys yet.
const NO_ENTRIES: [u8; 4] = [0; 4];

/// What is to be read of a key's subkeys.
#[derive(Clone, Copy)]
pub struct SubkeyParts<'a> {
    /// The list of keys, empty where the key has an index root.
    pub leaf: ListPart<'a>,
    /// The lists of the index root, none where the key has a list of keys.
    pub lists: ListPart<'a>,
}

/// A list without entries.
fn no_entries<'a>() -> ListPart<'a>
    ensures { entries_in result ≡ [] }
{
    ListPart {
        content: &NO_ENTRIES,
        form: ListForm::IndexLeaf,
        count: 0,
        taken: 0,
    }
}

/// What is to be read where there are no subkeys.
fn no_subkeys<'a>() -> SubkeyParts<'a>
    ensures leaf { entries_in result.leaf ≡ [] }
    ensures lists { entries_in result.lists ≡ [] }
{
    SubkeyParts {
        leaf: no_entries(),
        lists: no_entries(),
    }
}

/// What is to be read of the subkeys of a key with this list.
fn parts_of<'a>(list: ListPart<'a>) -> SubkeyParts<'a>
    ensures leaf { entries_in result.leaf ≡ keys_of list.entry.form (entries_in list.entry) }
    ensures lists { entries_in result.lists ≡ lists_of list.entry.form (entries_in list.entry) }
{
    if list.form == ListForm::IndexRoot {
        return SubkeyParts {
            leaf: no_entries(),
            lists: list,
        };
    }
    SubkeyParts {
        leaf: list,
        lists: no_entries(),
    }
}

/// Names the list of a key that has subkeys, a list of keys or an index root, and reads it.
fn listed<'a>(
    bins: &'a [u8],
    table: &mut CellTable,
    offset: u32,
) -> Result<SubkeyParts<'a>, LoadFault>
    ensures lists { (path : List ℕ) → (go : ℕ → Step (Unit {0})) → (more : ℕ) → (seen : Seen) →
        IsTable (cell_at bins.now) seen.found path table.old.states.items →
        Lists (cell_at bins.now) path go (suc more) offset seen table.new.states.items result }
    ensures fails { (path : List ℕ) → (seen : Seen) → IsTable (cell_at bins.now) seen.found path table.old.states.items → IfErr result
        (λ fault. Fails fault (list_step (cell_at bins.now) path offset) seen) }
    ensures no_more { unnamed table.new.states.items ≤ unnamed table.old.states.items }
{
    let list = list_from(bins, table, offset)?;
    Ok(parts_of(list))
}

/// Names a key's list of subkeys, unless it has none, and reads it. `count` is only tested for 0.
pub fn subkeys_from<'a>(
    bins: &'a [u8],
    table: &mut CellTable,
    count: u32,
    offset: u32,
) -> Result<SubkeyParts<'a>, LoadFault>
    ensures lists { (path : List ℕ) → (go : ℕ → Step (Unit {0})) → (seen : Seen) →
        IsTable (cell_at bins.now) seen.found path table.old.states.items →
        Lists (cell_at bins.now) path go count offset seen table.new.states.items result }
    ensures fails { (path : List ℕ) → (seen : Seen) → IsTable (cell_at bins.now) seen.found path table.old.states.items → IfErr result
        (NoList (cell_at bins.now) path count offset seen) }
    ensures no_more { unnamed table.new.states.items ≤ unnamed table.old.states.items }
{
    if count == 0 {
        return Ok(no_subkeys());
    }
    listed(bins, table, offset)
}
