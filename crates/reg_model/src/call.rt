ghost use Rattle.std.specs.Prelude.{◌≡◌, ◌↔◌, IfOk, IsTrue};

use crate::Bytes;
use crate::bytes::{clone_option, is_same_option};
use std::alloc::{AllocError, Global};

/// A change of a hive. An accepted one becomes one entry of the journal.
#[derive(Debug, Drop)]
pub enum Change {
    /// Opens a handle to the root key with these rights (`RegOpenKeyEx`).
    OpenRoot {
        mask: u32,
    },
    /// Opens a handle to the key at the end of a path from the handle's key, with these rights; the empty path opens the same
    /// key again (`RegOpenKeyEx`).
    OpenKey {
        handle: u64,
        path: Bytes,
        mask: u32,
    },
    /// Makes the keys of a path from the handle's key that are missing, and opens a handle to the last
    /// (`RegCreateKeyEx`). The last key made takes the security descriptor if one is given, of 1 to 65,535 bytes; every other
    /// key made shares its parent's.
    CreateKey {
        handle: u64,
        path: Bytes,
        mask: u32,
        descriptor: Option<Bytes>,
    },
    /// Sets a value of the handle's key; the empty name is the default value's (`RegSetValueEx`).
    SetValue {
        handle: u64,
        name: Bytes,
        kind: u32,
        bytes: Bytes,
    },
    /// Removes a value of the handle's key (`RegDeleteValue`).
    DeleteValue {
        handle: u64,
        name: Bytes,
    },
    /// Deletes the key at the end of a path from the handle's key, with its values (`RegDeleteKey`).
    DeleteKey {
        handle: u64,
        path: Bytes,
    },
    /// Deletes the key at the end of a path from the handle's key with all keys below it and their values; with the empty path
    /// the subkeys and values of the handle's key alone (`RegDeleteTree`).
    DeleteTree {
        handle: u64,
        path: Bytes,
    },
    /// Gives the handle's key a security descriptor, of 1 to 65,535 bytes (`RegSetKeySecurity`).
    SetSecurity {
        handle: u64,
        descriptor: Bytes,
    },
    /// Asks for one notification: of the first later change of the handle's key, and with `subtree` of a key below it too, of a
    /// kind that `filter` names (bits 1, 2, 4 and 8), or that the key is deleted or the handle closed
    /// (`RegNotifyChangeKeyValue`).
    Notify {
        handle: u64,
        filter: u32,
        subtree: bool,
    },
    /// Closes a handle (`RegCloseKey`).
    Close {
        handle: u64,
    },
}

impl Change {
    /// A copy, which equals its source. Its one fault is that memory was refused.
    pub fn try_clone(&self, alloc: Global) -> Result<Change, AllocError>
        ensures { IfOk result (λ copy. copy ≡ self.now) }
    {
        match self {
            Change::OpenRoot { mask } => Ok(Change::OpenRoot { mask: *mask }),
            Change::OpenKey { handle, path, mask } => Ok(Change::OpenKey {
                handle: *handle,
                path: path.try_clone(alloc)?,
                mask: *mask,
            }),
            Change::CreateKey {
                handle,
                path,
                mask,
                descriptor,
            } => Ok(Change::CreateKey {
                handle: *handle,
                path: path.try_clone(alloc)?,
                mask: *mask,
                descriptor: clone_option(alloc, descriptor)?,
            }),
            Change::SetValue {
                handle,
                name,
                kind,
                bytes,
            } => Ok(Change::SetValue {
                handle: *handle,
                name: name.try_clone(alloc)?,
                kind: *kind,
                bytes: bytes.try_clone(alloc)?,
            }),
            Change::DeleteValue { handle, name } => Ok(Change::DeleteValue {
                handle: *handle,
                name: name.try_clone(alloc)?,
            }),
            Change::DeleteKey { handle, path } => Ok(Change::DeleteKey {
                handle: *handle,
                path: path.try_clone(alloc)?,
            }),
            Change::DeleteTree { handle, path } => Ok(Change::DeleteTree {
                handle: *handle,
                path: path.try_clone(alloc)?,
            }),
            Change::SetSecurity { handle, descriptor } => Ok(Change::SetSecurity {
                handle: *handle,
                descriptor: descriptor.try_clone(alloc)?,
            }),
            Change::Notify {
                handle,
                filter,
                subtree,
            } => Ok(Change::Notify {
                handle: *handle,
                filter: *filter,
                subtree: *subtree,
            }),
            Change::Close { handle } => Ok(Change::Close { handle: *handle }),
        }
    }

    /// Whether this is the same change.
    pub fn is_same(&self, other: &Change) -> bool
        ensures { IsTrue result ↔ (self.now ≡ other.now) }
    {
        match (self, other) {
            (Change::OpenRoot { mask }, Change::OpenRoot { mask: m }) => mask == m,
            (
                Change::OpenKey { handle, path, mask },
                Change::OpenKey {
                    handle: h,
                    path: p,
                    mask: m,
                },
            ) => handle == h && mask == m && path.is_same(p),
            (
                Change::CreateKey {
                    handle,
                    path,
                    mask,
                    descriptor,
                },
                Change::CreateKey {
                    handle: h,
                    path: p,
                    mask: m,
                    descriptor: d,
                },
            ) => handle == h && mask == m && path.is_same(p) && is_same_option(descriptor, d),
            (
                Change::SetValue {
                    handle,
                    name,
                    kind,
                    bytes,
                },
                Change::SetValue {
                    handle: h,
                    name: n,
                    kind: k,
                    bytes: b,
                },
            ) => handle == h && kind == k && name.is_same(n) && bytes.is_same(b),
            (Change::DeleteValue { handle, name }, Change::DeleteValue { handle: h, name: n }) =>
                handle == h && name.is_same(n),
            (Change::DeleteKey { handle, path }, Change::DeleteKey { handle: h, path: p }) => {
                handle == h && path.is_same(p)
            }
            (Change::DeleteTree { handle, path }, Change::DeleteTree { handle: h, path: p }) => {
                handle == h && path.is_same(p)
            }
            (
                Change::SetSecurity { handle, descriptor },
                Change::SetSecurity {
                    handle: h,
                    descriptor: d,
                },
            ) => handle == h && descriptor.is_same(d),
            (
                Change::Notify {
                    handle,
                    filter,
                    subtree,
                },
                Change::Notify {
                    handle: h,
                    filter: f,
                    subtree: s,
                },
            ) => handle == h && filter == f && subtree == s,
            (Change::Close { handle }, Change::Close { handle: h }) => handle == h,
            _ => false,
        }
    }
}

/// A question to a hive. It is answered and not journaled.
#[derive(Debug, Drop)]
pub enum Query {
    /// Asks for a value of the handle's key. `room` is how many bytes the caller takes, or `None` for the size alone
    /// (`RegQueryValueEx`).
    QueryValue {
        handle: u64,
        name: Bytes,
        room: Option<u32>,
    },
    /// Asks for the subkey of the handle's key at an index, from 0 in the order of folded names. `room` is how many bytes of
    /// its name the caller takes (`RegEnumKeyEx`).
    EnumKey {
        handle: u64,
        index: u32,
        room: u32,
    },
    /// Asks for the value of the handle's key at an index, from 0 in the order in which the names were added. `name_room` and
    /// `room` are how many bytes of its name and of its data the caller takes; `None` for the data's size alone
    /// (`RegEnumValue`).
    EnumValue {
        handle: u64,
        index: u32,
        name_room: u32,
        room: Option<u32>,
    },
    /// Asks for the counts and largest lengths of the handle's key (`RegQueryInfoKey`).
    QueryInfo {
        handle: u64,
    },
    /// Asks for the security descriptor of the handle's key. `room` is how many bytes of it the caller takes
    /// (`RegGetKeySecurity`).
    GetSecurity {
        handle: u64,
        room: u32,
    },
}

impl Query {
    /// A copy, which equals its source. Its one fault is that memory was refused.
    pub fn try_clone(&self, alloc: Global) -> Result<Query, AllocError>
        ensures { IfOk result (λ copy. copy ≡ self.now) }
    {
        match self {
            Query::QueryValue { handle, name, room } => Ok(Query::QueryValue {
                handle: *handle,
                name: name.try_clone(alloc)?,
                room: *room,
            }),
            Query::EnumKey {
                handle,
                index,
                room,
            } => Ok(Query::EnumKey {
                handle: *handle,
                index: *index,
                room: *room,
            }),
            Query::EnumValue {
                handle,
                index,
                name_room,
                room,
            } => Ok(Query::EnumValue {
                handle: *handle,
                index: *index,
                name_room: *name_room,
                room: *room,
            }),
            Query::QueryInfo { handle } => Ok(Query::QueryInfo { handle: *handle }),
            Query::GetSecurity { handle, room } => Ok(Query::GetSecurity {
                handle: *handle,
                room: *room,
            }),
        }
    }
}

/// A change or a question.
#[derive(Debug, Drop)]
pub enum Call {
    Change(Change),
    Query(Query),
}

impl Call {
    /// A copy, which equals its source. Its one fault is that memory was refused.
    pub fn try_clone(&self, alloc: Global) -> Result<Call, AllocError>
        ensures { IfOk result (λ copy. copy ≡ self.now) }
    {
        match self {
            Call::Change(change) => Ok(Call::Change(change.try_clone(alloc)?)),
            Call::Query(query) => Ok(Call::Query(query.try_clone(alloc)?)),
        }
    }
}
