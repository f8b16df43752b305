//! Keys found by their names.
ghost use Rattle.std.specs.Prelude.{◌≡◌, ◌≤◌, true};
ghost use Rattle.reg_names.specs.declared.TheConstants.{PATH_LIMIT};
ghost use Rattle.reg_names.specs.Names.{folded, is_path};
ghost use Rattle.reg_heap.specs.Edits.{folded_path};
ghost use Rattle.reg_arena.specs.Arena.{heap_of};
ghost use Rattle.reg_shape.specs.PathLookup.{subkey_named};
ghost use Rattle.reg_tree.specs.Internal.TreeInvariant.{IsHere};
ghost use Rattle.reg_tree.specs.Internal.PathWalks.{IsWalked, Reaches};
ghost use Rattle.reg_tree.specs.Internal.ReachedPlaces.{IsChild, IsPlace};

use crate::key::subkeys_list;
use crate::{Node, Place, Reached};
use reg_arena::Arena;
use reg_index::{PlacedKey, at_place, find, find_key};
use reg_names::first_name;

/// The key of that name right below a key, after folding; or as an `Err` where the name belongs among the key's subkeys.
fn child(arena: &Arena, key: u32, name: &[u8]) -> Result<PlacedKey, Place>
    requires { IsHere arena.now.bytes key }
    ensures { IsChild (heap_of arena.now) key name.now result }
{
    let list = subkeys_list(arena, key);
    match find(arena, list, name) {
        Ok(place) => Ok(PlacedKey {
            place,
            key: at_place(arena, list, place),
        }),
        Err(place) => Err(place),
    }
}

/// The last key that is there on a path from a key, the path behind it, which is empty where all are there, and where its first
/// name belongs, or else where the key stands. Each list of subkeys on the way is searched once.
pub fn reach<'a>(arena: &Arena, from: Node, path: &'a [u8]) -> Reached<'a>
    requires here { IsHere arena.now.bytes from.offset }
    requires depth { from.depth ≤ PATH_LIMIT }
    requires path { is_path path.now ≡ true }
    ensures reaches { Reaches (heap_of arena.now) from path.now result.node result.missing.now }
    ensures place { IsPlace (heap_of arena.now) path.now result.node.offset result.missing.now result.place }
{
    let mut node = from;
    let mut rest = path;
    let mut place = Place { list: 0, index: 0 };
    while let Some((name, behind)) = first_name(rest) {
        match child(arena, node.offset, name) {
            Ok(below) => {
                node = Node {
                    offset: below.key,
                    depth: node.depth + 1,
                };
                rest = behind;
                place = below.place;
            }
            Err(place) => {
                return Reached {
                    node,
                    missing: rest,
                    place,
                };
            }
        }
    }
    Reached {
        node,
        missing: rest,
        place,
    }
}

/// The key of that name right below a key, after folding, if there is one.
fn below(arena: &Arena, key: u32, name: &[u8]) -> Option<u32>
    requires { IsHere arena.now.bytes key }
    ensures { result ≡ subkey_named (heap_of arena.now) (folded name.now) key }
{
    find_key(arena, subkeys_list(arena, key), name)
}

/// The key at the end of a path from a key, if it is there. Where none is missing it reads less than [`reach`], which tells places.
pub fn resolve(arena: &Arena, from: Node, path: &[u8]) -> Option<Node>
    requires here { IsHere arena.now.bytes from.offset }
    requires depth { from.depth ≤ PATH_LIMIT }
    requires path { is_path path.now ≡ true }
    ensures { IsWalked (heap_of arena.now) from (folded_path path.now) result }
{
    let mut node = from;
    let mut rest = path;
    while let Some((name, behind)) = first_name(rest) {
        node = Node {
            offset: below(arena, node.offset, name)?,
            depth: node.depth + 1,
        };
        rest = behind;
    }
    Some(node)
}
