//! What bytes are gathered in.

ghost use Rattle.std.specs.Prelude.{◌≡◌, ℕ, List, [], string_bytes};

use std::alloc::Global;

/// What bytes are gathered in before a writer gets them: a text, or any bytes.
pub trait Gathered {
    /// The bytes gathered.
    ghost bytes: { Self → List ℕ };

    /// One that holds nothing.
    fn empty(alloc: Global) -> Self
        ensures { bytes result ≡ [] };

    /// The bytes gathered, in their order.
    fn as_bytes(&self) -> &[u8]
        ensures { result.now ≡ bytes self.now };

    /// Lets go of all that was gathered.
    fn clear(&mut self)
        ensures { bytes self.new ≡ [] };
}

impl Gathered for String {
    ghost bytes = { string_bytes };

    fn empty(alloc: Global) -> String {
        String::new(alloc)
    }

    fn as_bytes(&self) -> &[u8] {
        String::as_bytes(self)
    }

    fn clear(&mut self) {
        String::clear(self);
    }
}

impl Gathered for Vec<u8> {
    ghost bytes = { λ gathered. gathered.items };

    fn empty(alloc: Global) -> Vec<u8> {
        Vec::new(alloc)
    }

    fn as_bytes(&self) -> &[u8] {
        self.as_slice()
    }

    fn clear(&mut self) {
        Vec::clear(self);
    }
}
