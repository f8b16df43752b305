ghost use Rattle.std.specs.Prelude.{◌≡◌, ◌≢◌, ◌<◌, ◌↔◌, [], length, IfOk, IsTrue, OnErr};

use smallvec::SmallVec;
use std::alloc::{AllocError, Global};
use std::marker::Model;

/// How many bytes take no memory of their own: most names have no more, and nor do numbers.
pub const INLINE_BYTES: usize = 16;

/// Bytes that contracts see as a list: a name, a value's data or a security descriptor. Few take no memory of their own.
#[derive(Debug)]
pub struct Bytes {
    items: SmallVec<u8, INLINE_BYTES>,
}

impl Model for Bytes {
    ghost use Rattle.std.specs.Prelude.{List, ℕ};

    ghost Value = { List ℕ };

    ghost view = { λ b. b.items.items };
}

// By hand, so that a caller that drops bytes calls this, and has no way of its own for those inline and those in memory.
impl Drop for Bytes {
    fn drop(self) {
        let Bytes { items: _ } = self;
    }
}

impl Bytes {
    /// The bytes of a vector, which is kept as it is where it has room for more than [`INLINE_BYTES`].
    pub fn from_vec(items: Vec<u8>) -> Bytes
        ensures { result ≡ items.items }
    {
        Bytes {
            items: SmallVec::from_vec(items),
        }
    }

    /// The bytes, lent.
    pub fn as_slice(&self) -> &[u8]
        ensures { result.now ≡ self.now }
    {
        self.items.as_slice()
    }

    /// A copy of a slice's bytes. Its one fault is that memory was refused, and never for [`INLINE_BYTES`] bytes or less.
    pub fn from_slice(alloc: Global, bytes: &[u8]) -> Result<Bytes, AllocError>
        ensures ok { IfOk result (λ copy. copy ≡ bytes.now) }
        ensures err { OnErr result (bytes.now ≢ []) }
        ensures many { OnErr result (INLINE_BYTES < length bytes.now) }
    {
        if bytes.is_empty() {
            return Ok(Bytes {
                items: SmallVec::new(alloc),
            });
        }
        let items = SmallVec::from_slice(alloc, bytes)?;
        Ok(Bytes { items })
    }

    /// A copy, which equals its source. Its one fault is that memory was refused, as for [`Bytes::from_slice`].
    pub fn try_clone(&self, alloc: Global) -> Result<Bytes, AllocError>
        ensures ok { IfOk result (λ copy. copy ≡ self.now) }
        ensures err { OnErr result (self.now ≢ []) }
        ensures many { OnErr result (INLINE_BYTES < length self.now) }
    {
        Bytes::from_slice(alloc, self.as_slice())
    }

    /// Whether these are the same bytes.
    pub fn is_same(&self, other: &Bytes) -> bool
        ensures { IsTrue result ↔ (self.now ≡ other.now) }
    {
        self.as_slice() == other.as_slice()
    }
}

/// A copy of optional bytes, which equals its source.
pub(crate) fn clone_option(
    alloc: Global,
    bytes: &Option<Bytes>,
) -> Result<Option<Bytes>, AllocError>
    ensures { IfOk result (λ copy. copy ≡ bytes.now) }
{
    match bytes {
        Some(bytes) => Ok(Some(bytes.try_clone(alloc)?)),
        None => Ok(None),
    }
}

/// Whether both are given and the same, or none is.
pub(crate) fn is_same_option(one: &Option<Bytes>, other: &Option<Bytes>) -> bool
    ensures { IsTrue result ↔ (one.now ≡ other.now) }
{
    match (one, other) {
        (Some(one), Some(other)) => one.is_same(other),
        (None, None) => true,
        _ => false,
    }
}
