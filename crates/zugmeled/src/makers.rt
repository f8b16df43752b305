//! Changes, with a copy of what they need. A copy lacks memory only where it takes some.
ghost use Rattle.std.specs.Prelude.{◌≡◌, IfOk, OnErr};
ghost use Rattle.reg_model.specs.declared.call.Change.TheVariants.{OpenKey, CreateKey, SetValue, DeleteValue, DeleteKey, DeleteTree, SetSecurity};
ghost use Rattle.zugmeled.specs.Calls.{IsLong, ChangeTakesMemory};
ghost use Rattle.zugmeled.specs.Makers.{given_of};

use reg_model::{Bytes, Change};
use std::alloc::{AllocError, Global};

#[tactic(auto, unfolding(crate::specs::Calls::ChangeTakesMemory))]
pub(crate) fn open_key(
    alloc: Global,
    handle: u64,
    path: &[u8],
    mask: u32,
) -> Result<Change, AllocError>
    ensures made { IfOk result (λ change. change ≡ OpenKey handle path.now mask) }
    ensures lack { OnErr result (ChangeTakesMemory (OpenKey handle path.now mask)) }
{
    match Bytes::from_slice(alloc, path) {
        Ok(path) => Ok(Change::OpenKey { handle, path, mask }),
        Err(lack) => Err(lack),
    }
}

/// A descriptor, where it has a byte.
fn given(alloc: Global, descriptor: &[u8]) -> Result<Option<Bytes>, AllocError>
    ensures made { IfOk result (λ given. given ≡ given_of descriptor.now) }
    ensures lack { OnErr result (IsLong descriptor.now) }
{
    if descriptor.len() == 0 {
        return Ok(None);
    }
    match Bytes::from_slice(alloc, descriptor) {
        Ok(descriptor) => Ok(Some(descriptor)),
        Err(lack) => Err(lack),
    }
}

#[tactic(auto, unfolding(crate::specs::Calls::ChangeTakesMemory))]
pub(crate) fn create_key(
    alloc: Global,
    handle: u64,
    path: &[u8],
    mask: u32,
    descriptor: &[u8],
) -> Result<Change, AllocError>
    ensures made { IfOk result (λ change. change ≡ CreateKey handle path.now mask (given_of descriptor.now)) }
    ensures lack { OnErr result (ChangeTakesMemory (CreateKey handle path.now mask (given_of descriptor.now))) }
{
    let path = Bytes::from_slice(alloc, path)?;
    let descriptor = given(alloc, descriptor)?;
    Ok(Change::CreateKey {
        handle,
        path,
        mask,
        descriptor,
    })
}

#[tactic(auto, unfolding(crate::specs::Calls::ChangeTakesMemory))]
pub(crate) fn set_value(
    alloc: Global,
    handle: u64,
    name: &[u8],
    kind: u32,
    bytes: &[u8],
) -> Result<Change, AllocError>
    ensures made { IfOk result (λ change. change ≡ SetValue handle name.now kind bytes.now) }
    ensures lack { OnErr result (ChangeTakesMemory (SetValue handle name.now kind bytes.now)) }
{
    let name = Bytes::from_slice(alloc, name)?;
    let bytes = Bytes::from_slice(alloc, bytes)?;
    Ok(Change::SetValue {
        handle,
        name,
        kind,
        bytes,
    })
}

#[tactic(auto, unfolding(crate::specs::Calls::ChangeTakesMemory))]
pub(crate) fn delete_value(alloc: Global, handle: u64, name: &[u8]) -> Result<Change, AllocError>
    ensures made { IfOk result (λ change. change ≡ DeleteValue handle name.now) }
    ensures lack { OnErr result (ChangeTakesMemory (DeleteValue handle name.now)) }
{
    match Bytes::from_slice(alloc, name) {
        Ok(name) => Ok(Change::DeleteValue { handle, name }),
        Err(lack) => Err(lack),
    }
}

#[tactic(auto, unfolding(crate::specs::Calls::ChangeTakesMemory))]
pub(crate) fn delete_key(alloc: Global, handle: u64, path: &[u8]) -> Result<Change, AllocError>
    ensures made { IfOk result (λ change. change ≡ DeleteKey handle path.now) }
    ensures lack { OnErr result (ChangeTakesMemory (DeleteKey handle path.now)) }
{
    match Bytes::from_slice(alloc, path) {
        Ok(path) => Ok(Change::DeleteKey { handle, path }),
        Err(lack) => Err(lack),
    }
}

#[tactic(auto, unfolding(crate::specs::Calls::ChangeTakesMemory))]
pub(crate) fn delete_tree(alloc: Global, handle: u64, path: &[u8]) -> Result<Change, AllocError>
    ensures made { IfOk result (λ change. change ≡ DeleteTree handle path.now) }
    ensures lack { OnErr result (ChangeTakesMemory (DeleteTree handle path.now)) }
{
    match Bytes::from_slice(alloc, path) {
        Ok(path) => Ok(Change::DeleteTree { handle, path }),
        Err(lack) => Err(lack),
    }
}

#[tactic(auto, unfolding(crate::specs::Calls::ChangeTakesMemory))]
pub(crate) fn set_security(
    alloc: Global,
    handle: u64,
    descriptor: &[u8],
) -> Result<Change, AllocError>
    ensures made { IfOk result (λ change. change ≡ SetSecurity handle descriptor.now) }
    ensures lack { OnErr result (ChangeTakesMemory (SetSecurity handle descriptor.now)) }
{
    match Bytes::from_slice(alloc, descriptor) {
        Ok(descriptor) => Ok(Change::SetSecurity { handle, descriptor }),
        Err(lack) => Err(lack),
    }
}
