//! A hive in a box, as one word of C's.
ghost use Rattle.std.specs.Prelude.{◌≡◌, Option, Some, None, is_some, true};
ghost use Rattle.zugmeled.specs.Held.{HeldHive, coded_held, held_owns};

use crate::loose::Loose;
use reg_callbacks::NoCallback;
use reg_calls::SeatedHive;
use std::alloc::Global;
use std::marker::Model;

/// Nothing, or a hive with the shares of its sessions.
#[repr(C)]
#[derive(Drop)]
pub struct Held {
    at: *mut u8,
    alloc: Global,
    pub ghost value: { Option HeldHive } by { coded_held },
}

impl Model for Held {
    ghost also_owns = { λ h. held_owns h.alloc h.at h.value };
}

impl Held {
    /// Nothing.
    pub(crate) fn none(alloc: Global) -> Held
        ensures { result.value ≡ None }
    {
        Held {
            at: std::ptr::null_mut(),
            alloc,
        }
    }

    /// The hive of a box that was taken apart.
    pub(crate) fn of(hive: Loose<SeatedHive<NoCallback>, Global>) -> Held
        ensures { result.value ≡ Some hive.value }
    {
        let Loose { at, alloc } = hive;
        Held {
            at: at as *mut u8,
            alloc,
        }
    }

    /// The box's pointer again.
    pub(crate) fn into_loose(self) -> Loose<SeatedHive<NoCallback>, Global>
        requires { is_some self.value ≡ true }
        ensures { Some result.value ≡ self.value }
    {
        let Held { at, alloc } = self;
        Loose {
            at: at as *mut SeatedHive<NoCallback>,
            alloc,
        }
    }
}

// A hive may pass from thread to thread, where the caller's lock orders that.
unsafe impl Send for Held {}
