//! What C holds of a hive.
ghost use Rattle.std.specs.Prelude.{◌≡◌, ◌≢◌, Option, Some, None, option_map, is_some, true, false};

use crate::held::Held;
use crate::loose::Loose;
use reg_callbacks::NoCallback;
use reg_calls::SeatedHive;
use std::alloc::Global;

/// Two words of the caller's memory: all zero where it holds no hive.
#[repr(C)]
#[derive(Drop)]
pub struct ZugHive {
    holds: u64,
    held: Held,
    ghost empty: { holds ≡ 0 → is_some held.value ≡ false },
    ghost full: { holds ≢ 0 → is_some held.value ≡ true },
}

impl ZugHive {
    /// Takes the hive out.
    pub(crate) fn take(&mut self, alloc: Global) -> Option<Box<SeatedHive<NoCallback>>>
        ensures gone { self.new.held.value ≡ None }
        ensures hive { option_map (λ hive. hive.value) result ≡ self.old.held.value }
    {
        if self.holds == 0 {
            return None;
        }
        self.holds = 0;
        let held = std::mem::replace(&mut self.held, Held::none(alloc));
        Some(held.into_loose().into_box())
    }

    /// Whether there is a hive.
    pub(crate) fn is_held(&mut self) -> bool
        ensures same { self.new.held.value ≡ self.old.held.value }
        ensures held { result ≡ is_some self.old.held.value }
    {
        self.holds != 0
    }

    /// Puts a hive where none is.
    pub(crate) fn put(&mut self, hive: Box<SeatedHive<NoCallback>>)
        requires { self.old.held.value ≡ None }
        ensures { self.new.held.value ≡ Some hive.value }
    {
        self.holds = 1;
        self.held = Held::of(Loose::of(hive));
    }
}
