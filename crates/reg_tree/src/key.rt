//! Key nodes, as the tree writes them.
ghost use Rattle.std.specs.Prelude.{◌≡◌, ◌≤◌, ◌<◌, ◌^◌, IsSome, Some, length};
ghost use Rattle.reg_names.specs.declared.TheConstants.{KEY_NAME_LIMIT};
ghost use Rattle.reg_arena.specs.Arena.{heap_of};
ghost use Rattle.reg_records.specs.KeyNodes.{KeyRecord, key_at};
ghost use Rattle.reg_tree.specs.NewHive.{root_fields};
ghost use Rattle.reg_tree.specs.Internal.KeyNodeChanges.{HasList, HasSubkeysList, Notes, SameSizes, noted, noted_security, noted_subkeys, raised, made_fields};

use reg_arena::Arena;
use reg_heap::limits::NONE;
use reg_index::SubkeysIndex;
use reg_records::{
    KeyFields, nk_fields, set_largest_subkey_name, set_largest_value_data, set_largest_value_name,
    set_security, set_subkeys, set_subkeys_list, set_time, set_values,
};
use reg_values::ValuesList;

/// The flags of a root: no delete, hive entry, and a name of one byte a character.
const ROOT_FLAGS: u16 = 0x2C;

/// The flags of a made key: a name of one byte a character.
const MADE_FLAGS: u16 = 0x20;

/// The fixed part of a new root's key node.
pub fn new_root(security: u32, moment: u64) -> KeyFields
    ensures { result ≡ root_fields security moment }
{
    KeyFields {
        flags: ROOT_FLAGS,
        ..new_key(NONE, security, moment)
    }
}

/// The fixed part of a made key's key node.
pub fn new_key(parent: u32, security: u32, moment: u64) -> KeyFields
    ensures { result ≡ made_fields parent security moment }
{
    KeyFields {
        flags: MADE_FLAGS,
        time: moment,
        parent,
        subkeys: 0,
        subkeys_list: NONE,
        values: 0,
        values_list: NONE,
        security,
        class: NONE,
        class_length: 0,
        largest_subkey_name: 0,
        largest_subkey_class: 0,
        largest_value_name: 0,
        largest_value_data: 0,
    }
}

/// The fixed part of a key node.
pub fn fields(arena: &Arena, key: u32) -> KeyFields
    requires { IsSome (key_at (heap_of arena.now) key) }
    ensures { (record_is : KeyRecord) → key_at (heap_of arena.now) key ≡ Some record_is → result ≡ record_is.fields }
{
    nk_fields(arena.content(key))
}

/// The list of a key's values, as its key node names it.
pub fn values_list(arena: &Arena, key: u32) -> ValuesList
    requires { IsSome (key_at (heap_of arena.now) key) }
    ensures { HasList (heap_of arena.now) key result.count result.offset }
{
    let fields = fields(arena, key);
    ValuesList {
        count: fields.values,
        offset: fields.values_list,
    }
}

/// The list of a key's subkeys, as its key node names it.
pub fn subkeys_list(arena: &Arena, key: u32) -> SubkeysIndex
    requires { IsSome (key_at (heap_of arena.now) key) }
    ensures { HasSubkeysList (heap_of arena.now) key result.count result.offset }
{
    let fields = fields(arena, key);
    SubkeysIndex {
        count: fields.subkeys,
        offset: fields.subkeys_list,
    }
}

/// Notes a change of a key's values in its key node: their number and list, the time, and the largest lengths where the name
/// (in characters) and the data (in bytes) are longer.
pub fn note_values(arena: &mut Arena, key: u32, list: ValuesList, name: u32, size: u32, moment: u64)
    requires exists { IsSome (key_at (heap_of arena.old) key) }
    requires name { name < 2 ^ 31 }
    ensures notes { Notes (heap_of arena.old) (heap_of arena.new) key (noted list.count list.offset name size moment) }
    ensures long { length arena.new.bytes ≡ length arena.old.bytes }
    ensures sizes { SameSizes (heap_of arena.old) (heap_of arena.new) }
{
    let old = fields(arena, key);
    set_values(arena, key, list.count, list.offset);
    set_time(arena, key, moment);
    set_largest_value_name(arena, key, old.largest_value_name.max(2 * name));
    set_largest_value_data(arena, key, old.largest_value_data.max(size));
}

/// The largest length of a subkey's name, raised where a length is greater. It stands in the low 16 bits; the others stay.
fn raise(largest: u32, length: u32) -> u32
    requires { length < 65536 }
    ensures { result ≡ raised largest length }
{
    let low = largest % 0x1_0000;
    largest - low + low.max(length)
}

/// Notes a change of a key's subkeys in its key node: their number and list, the time, and the largest length of a name
/// where this one (in characters) is longer.
pub fn note_subkeys(arena: &mut Arena, key: u32, list: SubkeysIndex, name: u32, moment: u64)
    requires exists { IsSome (key_at (heap_of arena.old) key) }
    requires name { name ≤ KEY_NAME_LIMIT }
    ensures notes { Notes (heap_of arena.old) (heap_of arena.new) key (noted_subkeys list.count list.offset name moment) }
    ensures long { length arena.new.bytes ≡ length arena.old.bytes }
    ensures sizes { SameSizes (heap_of arena.old) (heap_of arena.new) }
{
    let old = fields(arena, key);
    set_subkeys(arena, key, list.count);
    set_subkeys_list(arena, key, list.offset);
    set_time(arena, key, moment);
    set_largest_subkey_name(arena, key, raise(old.largest_subkey_name, 2 * name));
}

/// Notes another security in a key's key node, and the time.
pub fn note_security(arena: &mut Arena, key: u32, security: u32, moment: u64)
    requires { IsSome (key_at (heap_of arena.old) key) }
    ensures notes { Notes (heap_of arena.old) (heap_of arena.new) key (noted_security security moment) }
    ensures long { length arena.new.bytes ≡ length arena.old.bytes }
    ensures sizes { SameSizes (heap_of arena.old) (heap_of arena.new) }
{
    set_security(arena, key, security);
    set_time(arena, key, moment);
}
