ghost use Rattle.std.specs.Prelude.{◌≡◌, ◌⊎◌, ◌<◌, ◌≤◌, [], IfErr, vec_capacity};
ghost use Rattle.reg_sessions.specs.declared.registry.TheConstants.{HIVES_LIMIT};

use crate::locked::Locked;
use crossbeam_utils::CachePadded;
use reg_callbacks::{Callback, CallbackFault, Cookie};
use std::alloc::{AllocError, Global};
use std::marker::Model;
use std::sync::{Mutex, Wait};

/// How many hives a registry has at most.
pub const HIVES_LIMIT: usize = 16;

/// Room for all hives of an audit, so that gathering takes no memory. It stands behind a lock as the hives do, since callbacks needn't be
/// `Sync`.
#[derive(Drop)]
pub struct Room<C = Box<dyn Callback + Send>> {
    hives: Vec<Locked<C>>,
}

impl<C> Model for Room<C> {
    ghost use Rattle.std.specs.Prelude.{◌≡◌, ◌≤◌, [], vec_capacity};
    ghost use Rattle.reg_sessions.specs.declared.registry.TheConstants.{HIVES_LIMIT};

    ghost Value = { Unit {0} };

    ghost view = { λ r. tt };

    ghost invariant = { λ r. (r.hives.items ≡ []) × (HIVES_LIMIT ≤ vec_capacity r.hives) };
}

impl<C: Callback> Room<C> {
    /// Room for 16 hives.
    pub fn new(alloc: Global) -> Result<Room<C>, AllocError> {
        let mut hives = Vec::new(alloc);
        hives.reserve(HIVES_LIMIT)?;
        Ok(Room { hives })
    }

    /// The room itself.
    pub fn into_hives(self) -> Vec<Locked<C>>
        ensures none { result.items ≡ [] }
        ensures room { HIVES_LIMIT ≤ vec_capacity result }
    {
        let Room { hives } = self;
        hives
    }
}

/// The hives of a registry, each behind a lock of its own, which stands on cache lines of its own.
#[derive(Drop)]
pub struct Registry<C = Box<dyn Callback + Send>> {
    pub(crate) hives: Vec<CachePadded<Mutex<Locked<C>>>>,
    pub(crate) room: Mutex<Room<C>>,
    pub(crate) sessions: u8,
}

impl<C> Model for Registry<C> {
    ghost use Rattle.std.specs.Prelude.{◌≤◌, vec_len};
    ghost use Rattle.reg_model.specs.declared.limits.TheConstants.{SESSIONS_LIMIT};
    ghost use Rattle.reg_sessions.specs.declared.registry.TheConstants.{HIVES_LIMIT};
    ghost use Rattle.reg_sessions.specs.Sessions.{Shape};

    ghost Value = { Shape };

    ghost view = { λ r. record { hives = vec_len r.hives; sessions = r.sessions } };

    ghost invariant = { λ r. (vec_len r.hives ≤ HIVES_LIMIT) × (r.sessions ≤ SESSIONS_LIMIT) };
}

impl<C: Callback> Registry<C> {
    /// How many hives there are: a hive's number is below it.
    pub fn hives(&self) -> usize
        ensures hives { result ≡ self.now.hives }
        ensures few { result ≤ HIVES_LIMIT }
    {
        self.hives.len()
    }

    /// The lock of a hive.
    pub(crate) fn lock(&self, hive: u8) -> &Mutex<Locked<C>>
        requires { hive < self.now.hives }
    {
        &self.hives[hive as usize]
    }

    /// Registers a callback on a hive at an altitude, as `Hive::register` of reg_calls: it waits for the hive's lock. Where it is refused,
    /// the callback comes back.
    pub fn register<Rt: Wait>(
        &self,
        rt: &Rt,
        hive: u8,
        callback: C,
        altitude: u32,
    ) -> Result<Cookie, CallbackFault<C>>
        requires { hive < self.now.hives }
        ensures returned { IfErr result (λ fault. (fault ≡ CallbackFault.Full callback)
            ⊎ (fault ≡ CallbackFault.AltitudeTaken callback)
            ⊎ (fault ≡ CallbackFault.Memory callback)) }
    {
        let mut guard = self.lock(hive).lock(rt);
        guard.register(callback, altitude)
    }

    /// Takes the callback of a cookie out of a hive, as `Hive::unregister` of reg_calls: it waits for the hive's lock. `NoSuchCookie` is
    /// its one fault. Takes no memory.
    pub fn unregister<Rt: Wait>(
        &self,
        rt: &Rt,
        hive: u8,
        cookie: Cookie,
    ) -> Result<C, CallbackFault<C>>
        requires { hive < self.now.hives }
        ensures fault { IfErr result (λ fault. fault ≡ CallbackFault.NoSuchCookie) }
    {
        let mut guard = self.lock(hive).lock(rt);
        guard.unregister(cookie)
    }
}
