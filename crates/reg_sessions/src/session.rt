ghost use Rattle.std.specs.Prelude.{◌≡◌, ◌≢◌, ◌+◌, ◌<◌, ◌≤◌, ◌==◌, ◌⊎◌, ℕ, [], ◌∷◌, ◌++◌, length, true, Some, IfNone, IfSome, OnErr, OnOk, if◌then◌else◌};
ghost use mathlib.Core.List.{IsPrefix};
ghost use Rattle.reg_model.specs.declared.answer.AnswerBody.TheVariants.{Refused};
ghost use Rattle.reg_model.specs.declared.statuses.TheConstants.{BAD_DATABASE, NOT_ENOUGH_MEMORY};
ghost use Rattle.reg_sessions.specs.Locked.{IsLawfulOrLacks, IsLawfulAnswer};
ghost use Rattle.reg_sessions.specs.Sessions.{SessionState, IsDropped, receipts_at, dropped_at, count_at, mark_at, seat_at, taken_at, popped_at, waiting_at, notifies_at, handles_at, notice_of, receipt_of, mark_after, mark_told, closes, notifies_after, handles_after, status_told};

use crate::gate::HiveGate;
use crate::place::Place;
use crate::registry::Registry;
use reg_callbacks::Callback;
use reg_model::{Answer, Change, ChangeReply, Notice, Query, Receipt};
use std::alloc::{AllocError, Global};
use std::marker::Model;
use std::sync::Wait;

/// A session: who calls, one call after another, with its seat at each hive. It keeps a receipt of each of its accepted changes since the
/// hive's last checkpoint. Its mark on a hive is how many entries that hive has had at least, by all that the session was told of it: the
/// greatest of `at` of its answers with status 0, and of the number after that of each of its accepted changes. What a hive tells it comes
/// by its ring there, a queue of 64 notices. [`Session::take_notice`] takes the next one without the hive's lock.
#[derive(Drop)]
pub struct Session {
    alloc: Global,
    number: u8,
    places: Vec<Place>,
}

impl Model for Session {
    ghost use Rattle.std.specs.Prelude.{◌≡◌, ◌<◌, ℕ, length};
    ghost use Rattle.reg_sessions.specs.Sessions.{SessionState, place_of};

    ghost Value = { SessionState };

    ghost view = { λ s. record { number = s.number; places = s.places.items } };

    ghost invariant = { λ s. (h : ℕ) → h < length s.places.items → (place_of s.places.items h).seat.session ≡ s.number };
}

impl Session {
    /// A session that has no seat yet.
    pub(crate) fn new(alloc: Global, number: u8) -> Session
        ensures { result ≡ record { number = number; places = [] } }
    {
        Session {
            alloc,
            number,
            places: Vec::new(alloc),
        }
    }

    /// Adds the session's seat at one hive more.
    #[tactic(auto, using(crate::proofs::SessionPlaces::one_place_more))]
    pub(crate) fn add(&mut self, place: Place) -> Result<(), AllocError>
        requires { place.seat.session ≡ self.old.number }
        ensures ok { OnOk result (self.new ≡ record self.old { places = self.old.places ++ place ∷ [] }) }
        ensures err { OnErr result (self.new ≡ self.old) }
    {
        self.places.push(place)?;
        Ok(())
    }

    /// The session's number: how many were started before it.
    pub fn number(&self) -> u8
        ensures { result ≡ self.now.number }
    {
        self.number
    }

    /// How many hives there are.
    pub fn hives(&self) -> usize
        ensures { result ≡ length self.now.places }
    {
        self.places.len()
    }

    /// The receipts of the session's accepted changes at a hive since its last checkpoint, in order: as many as its share has counted there
    /// since. None at a hive that isn't there.
    pub fn receipts(&self, hive: u8) -> &[Receipt]
        ensures receipts { result.now ≡ receipts_at hive self.now }
        ensures counted { dropped_at hive self.now + length (receipts_at hive self.now) ≡ count_at hive self.now }
    {
        match self.places.get(hive as usize) {
            Some(place) => place.receipts(),
            None => &[],
        }
    }

    /// Drops the receipts at a hive, which a checkpoint compared. Takes no memory.
    #[tactic(auto, using(crate::proofs::SessionPlaces::place_set))]
    pub(crate) fn drop_receipts(&mut self, hive: u8)
        ensures { IsDropped hive self.old self.new }
    {
        let alloc = self.alloc;
        if (hive as usize) < self.places.len() {
            self.places[hive as usize].drop_receipts(alloc);
        }
    }

    /// The notices of a hive that the session took, in order. None at a hive that isn't there.
    pub fn taken(&self, hive: u8) -> &[Notice]
        ensures { result.now ≡ taken_at hive self.now }
    {
        match self.places.get(hive as usize) {
            Some(place) => place.taken(),
            None => &[],
        }
    }

    /// Makes a change at a hive, at a moment (100 ns units since 1601): it waits for the hive's lock, and is answered as by `Hive::apply`
    /// of reg_calls. Where it is accepted, and only then, the session has one receipt more, of this moment, change and reply. 1009 also
    /// where the hive has had fewer entries than the session's mark there, which is never so at the hive that gave the seat. Want of memory
    /// is 8, where nothing else refuses the change, and never the answer to a Close while a handle of the session is open there.
    #[tactic(auto, using(crate::proofs::SessionPlaces::place_set))]
    pub fn change<Rt: Wait, G: HiveGate, C: Callback>(
        &mut self,
        rt: &Rt,
        registry: &Registry<C>,
        gate: &G,
        hive: u8,
        moment: u64,
        change: &Change,
    ) -> ChangeReply
        requires hive { hive < registry.now.hives }
        requires seat { hive < length self.old.places }
        ensures receipts { (h : ℕ) → receipts_at h self.new ≡ receipts_at h self.old ++ (if h == hive then receipt_of moment change.now result else []) }
        ensures marks { (h : ℕ) → mark_at h self.new ≡ (if h == hive then mark_after (mark_at h self.old) result else mark_at h self.old) }
        ensures notices { (h : ℕ) → (taken_at h self.new ≡ taken_at h self.old) × (popped_at h self.new ≡ popped_at h self.old)
            × (waiting_at h self.new ≡ waiting_at h self.old) }
        ensures notifies { (h : ℕ) → notifies_at h self.new ≡ (if h == hive then notifies_after (notifies_at h self.old) change.now result else notifies_at h self.old) }
        ensures handles { (h : ℕ) → handles_at h self.new ≡ (if h == hive then handles_after (handles_at h self.old) change.now result else handles_at h self.old) }
        ensures dropped { (h : ℕ) → dropped_at h self.new ≡ dropped_at h self.old }
        ensures kept { (self.new.number ≡ self.old.number) × (length self.new.places ≡ length self.old.places) }
        ensures refused { result.status ≢ 0 → self.new ≡ self.old }
        ensures later { result.status ≡ 0 → (n : ℕ) × (result.number ≡ Some n) × (count_at hive self.old ≤ n) × (mark_at hive self.old ≤ n) }
        ensures lawful { result.status ≢ BAD_DATABASE →
            IsLawfulOrLacks C.answers (seat_at hive self.old) (mark_at hive self.old) (handles_at hive self.old) moment change.now result }
        ensures spared { closes change.now ≡ true → handles_at hive self.old ≢ 0 → result.status ≢ NOT_ENOUGH_MEMORY }
    {
        let lock = registry.lock(hive);
        let alloc = self.alloc;
        self.places[hive as usize].change(rt, alloc, lock, gate, hive, moment, change)
    }

    /// Asks a question at a hive: it waits for the hive's lock, and is answered as by `Hive::read` of reg_calls. 1009 as of `change`. After
    /// an answer with status 0 the session's mark there is its `at`.
    #[tactic(auto, using(crate::proofs::SessionPlaces::place_set, crate::proofs::SessionPlaces::set_same))]
    pub fn ask<Rt: Wait, G: HiveGate, C: Callback>(
        &mut self,
        rt: &Rt,
        registry: &Registry<C>,
        gate: &G,
        hive: u8,
        query: &Query,
    ) -> Answer
        requires hive { hive < registry.now.hives }
        requires seat { hive < length self.old.places }
        ensures receipts { (h : ℕ) → receipts_at h self.new ≡ receipts_at h self.old }
        ensures marks { (h : ℕ) → mark_at h self.new ≡ (if h == hive then mark_told (mark_at h self.old) result else mark_at h self.old) }
        ensures notices { (h : ℕ) → (taken_at h self.new ≡ taken_at h self.old) × (popped_at h self.new ≡ popped_at h self.old)
            × (waiting_at h self.new ≡ waiting_at h self.old) }
        ensures notifies { (h : ℕ) → notifies_at h self.new ≡ notifies_at h self.old }
        ensures handles { (h : ℕ) → handles_at h self.new ≡ handles_at h self.old }
        ensures dropped { (h : ℕ) → dropped_at h self.new ≡ dropped_at h self.old }
        ensures kept { (self.new.number ≡ self.old.number) × (length self.new.places ≡ length self.old.places) }
        ensures refused { status_told result.body ≢ 0 → self.new ≡ self.old }
        ensures later { result.body ≢ Refused BAD_DATABASE → (count_at hive self.old ≤ result.at) × (mark_at hive self.old ≤ result.at) }
        ensures lawful { result.body ≢ Refused BAD_DATABASE → IsLawfulAnswer C.answers (seat_at hive self.old) (mark_at hive self.old) query.now result }
    {
        let lock = registry.lock(hive);
        self.places[hive as usize].ask(rt, lock, gate, hive, query)
    }

    /// Takes the session's next notice of a hive, if one has come: it takes no lock and no memory. What the hive keeps back comes by the
    /// session's next change or question there, as far as the ring of 64 has room then. A notice that was taken is kept, and compared when
    /// all are gathered. `None` where the ring is empty, and may be so where as many notices were taken as Notify calls were accepted
    /// there; then nothing changed.
    #[tactic(auto, using(crate::proofs::SessionPlaces::place_set, crate::proofs::SessionPlaces::set_same))]
    pub fn take_notice<C: Callback>(&mut self, _registry: &Registry<C>, hive: u8) -> Option<Notice>
        requires seat { hive < length self.old.places }
        ensures taken { (h : ℕ) → taken_at h self.new ≡ taken_at h self.old ++ (if h == hive then notice_of result else []) }
        ensures popped { (h : ℕ) → popped_at h self.new ≡ popped_at h self.old ++ (if h == hive then notice_of result else []) }
        ensures next { IfSome result (λ notice. IsPrefix (waiting_at hive self.old) (notice ∷ waiting_at hive self.new)) }
        ensures others { (h : ℕ) → h ≢ hive → waiting_at h self.new ≡ waiting_at h self.old }
        ensures none { IfNone result ((self.new ≡ self.old)
            × ((waiting_at hive self.old ≡ []) ⊎ (notifies_at hive self.old ≤ length (taken_at hive self.old)))) }
        ensures notifies { (h : ℕ) → notifies_at h self.new ≡ notifies_at h self.old }
        ensures handles { (h : ℕ) → handles_at h self.new ≡ handles_at h self.old }
        ensures receipts { (h : ℕ) → receipts_at h self.new ≡ receipts_at h self.old }
        ensures marks { (h : ℕ) → mark_at h self.new ≡ mark_at h self.old }
        ensures dropped { (h : ℕ) → dropped_at h self.new ≡ dropped_at h self.old }
        ensures kept { (self.new.number ≡ self.old.number) × (length self.new.places ≡ length self.old.places) }
    {
        self.places[hive as usize].take_notice()
    }
}
