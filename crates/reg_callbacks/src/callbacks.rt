ghost use Rattle.std.specs.Prelude.{◌≡◌, ◌≤◌, map, true};
ghost use Rattle.reg_callbacks.specs.Rows.{is_falling, are_below, are_distinct};
ghost use Rattle.reg_callbacks.specs.declared.callbacks.TheConstants.{REGISTRATIONS_LIMIT};

use crate::row::Row;
use crate::{CallView, Callback};
use std::alloc::Global;

/// How many registrations may be made on a hive, those that were taken out again with them.
pub const REGISTRATIONS_LIMIT: u32 = 65_536;

/// What a registration is named by to take it out: how many there were before it.
#[derive(Clone, Copy, Debug, PartialEq, Eq)]
pub struct Cookie {
    /// From 0 on; none is given twice.
    pub number: u32,
}

/// Why a callback wasn't registered, or none was taken out; the first that holds, `Full` before the others. The callback that wasn't
/// kept comes back.
#[derive(Drop)]
pub enum CallbackFault<C = Box<dyn Callback + Send>> {
    /// A callback is registered at this altitude.
    AltitudeTaken(C),
    /// A growth was refused.
    Memory(C),
    /// No callback that is registered has the cookie.
    NoSuchCookie,
    /// 65,536 registrations were made.
    Full(C),
}

/// The callbacks of a hive: boxes, or values of one type. They are dropped with it.
#[derive(Drop)]
pub struct Callbacks<C = Box<dyn Callback + Send>> {
    // The highest altitude first.
    rows: Vec<Row<C>>,
    made: u32,
    ghost within: { made ≤ REGISTRATIONS_LIMIT },
    ghost falling: { is_falling (map (λ row. row.altitude) rows.items) ≡ true },
    ghost below: { are_below made (map (λ row. row.cookie) rows.items) ≡ true },
    ghost distinct: { are_distinct (map (λ row. row.cookie) rows.items) ≡ true },
}

impl<C: Callback> Callbacks<C> {
    ghost use Rattle.std.specs.Prelude.{ℕ, [], ◌≡◌, ◌⊎◌, ◌↔◌, ◌+◌, ◌<◌, ◌≤◌, true, false, length, slice_get, Some, IfSome, IfNone, IfOk, IfErr, OnErr, IsErrOf};
    ghost use Rattle.reg_callbacks.specs.Asking.{status_of};
    ghost use Rattle.reg_callbacks.specs.Rows.{is_falling, is_among, count_above, IsOneMore};
    ghost use Rattle.reg_callbacks.specs.Lists.{rows_of, altitudes_of, cookies_of, answers_of, made_of};

    /// No callback; the first one is given the cookie 0.
    pub fn new(alloc: Global) -> Callbacks<C>
        ensures none { rows_of result ≡ [] }
        ensures first { made_of result ≡ 0 }
    {
        Callbacks {
            rows: Vec::new(alloc),
            made: 0,
        }
    }

    /// Asks the callbacks of a call, from the highest altitude down, until one refuses. Answers its status, or 0 where all let the
    /// call go on. Takes no memory.
    pub fn ask(&self, view: &CallView) -> u32
        ensures status { result ≡ status_of (answers_of C.answers self.now) view.now }
        ensures order { is_falling (altitudes_of self.now) ≡ true }
    {
        for row in &self.rows {
            let status = row.ask(view);
            if status != 0 {
                return status;
            }
        }
        0
    }

    /// Registers a callback at an altitude, and answers its cookie. `Full` where 65,536 registrations were made, else
    /// `AltitudeTaken` where a callback is at that altitude, else `Memory`; then nothing changed, and the callback comes back.
    pub fn register(&mut self, callback: C, altitude: u32) -> Result<Cookie, CallbackFault<C>>
        ensures added { IfOk result (λ cookie. IsOneMore (record { altitude = altitude; cookie = cookie.number; callback = callback }) (rows_of self.old) (rows_of self.new)) }
        ensures cookie { IfOk result (λ cookie. cookie.number ≡ made_of self.old) }
        ensures made { IfOk result (λ cookie. made_of self.new ≡ made_of self.old + 1) }
        ensures full { IsErrOf result (CallbackFault.Full callback) ↔ (made_of self.old ≡ REGISTRATIONS_LIMIT) }
        ensures altitude_taken { IsErrOf result (CallbackFault.AltitudeTaken callback)
            ↔ ((made_of self.old < REGISTRATIONS_LIMIT) × (is_among altitude (altitudes_of self.old) ≡ true)) }
        ensures returned { IfErr result (λ fault. (fault ≡ CallbackFault.Full callback)
            ⊎ (fault ≡ CallbackFault.AltitudeTaken callback)
            ⊎ (fault ≡ CallbackFault.Memory callback)) }
        ensures err { OnErr result ((rows_of self.new ≡ rows_of self.old) × (made_of self.new ≡ made_of self.old)) }
    {
        if self.made >= REGISTRATIONS_LIMIT {
            return Err(CallbackFault::Full(callback));
        }
        if self.is_taken(altitude) {
            return Err(CallbackFault::AltitudeTaken(callback));
        }
        let place = self.place_of(altitude);
        let cookie = self.made;
        let row = Row {
            altitude,
            cookie,
            callback,
        };
        match self.rows.insert(place, row) {
            Ok(()) => {
                self.made += 1;
                Ok(Cookie { number: cookie })
            }
            Err(refused) => Err(CallbackFault::Memory(refused.value.callback)),
        }
    }

    /// Takes out the callback of a cookie, and answers it. `NoSuchCookie` where none has it; then nothing changed. Takes no
    /// memory.
    pub fn unregister(&mut self, cookie: Cookie) -> Result<C, CallbackFault<C>>
        ensures taken { IfOk result (λ callback. (altitude : ℕ)
            × IsOneMore (record { altitude = altitude; cookie = cookie.number; callback = callback }) (rows_of self.new) (rows_of self.old)) }
        ensures gone { IfOk result (λ callback. is_among cookie.number (cookies_of self.new) ≡ false) }
        ensures made { made_of self.new ≡ made_of self.old }
        ensures no_such_cookie { IsErrOf result CallbackFault.NoSuchCookie
            ↔ (is_among cookie.number (cookies_of self.old) ≡ false) }
        ensures fault { IfErr result (λ fault. fault ≡ CallbackFault.NoSuchCookie) }
        ensures err { OnErr result (self.new ≡ self.old) }
    {
        match self.place_of_cookie(cookie.number) {
            Some(place) => Ok(self.rows.remove(place).callback),
            None => Err(CallbackFault::NoSuchCookie),
        }
    }

    /// Whether a callback is at an altitude.
    fn is_taken(&self, altitude: u32) -> bool
        ensures { result ≡ is_among altitude (altitudes_of self.now) }
    {
        for row in &self.rows {
            if row.altitude == altitude {
                return true;
            }
        }
        false
    }

    /// How many callbacks are above an altitude: where one at it would stand.
    fn place_of(&self, altitude: u32) -> usize
        ensures value { result ≡ count_above altitude (altitudes_of self.now) }
        ensures bound { result ≤ length (rows_of self.now) }
    {
        let mut place = 0;
        for row in &self.rows {
            if row.altitude <= altitude {
                return place;
            }
            place += 1;
        }
        place
    }

    /// Where the callback of a cookie stands; `None` where none has it.
    fn place_of_cookie(&self, cookie: u32) -> Option<usize>
        ensures bound { IfSome result (λ place. place < length (rows_of self.now)) }
        ensures found { IfSome result (λ place. slice_get (cookies_of self.now) place ≡ Some cookie) }
        ensures none { IfNone result (is_among cookie (cookies_of self.now) ≡ false) }
    {
        let mut place = 0;
        for row in &self.rows {
            if row.cookie == cookie {
                return Some(place);
            }
            place += 1;
        }
        None
    }
}
