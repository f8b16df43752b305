ghost use Rattle.std.specs.Prelude.{◌≡◌, ◌≢◌, ◌<◌, ◌≤◌, ◌↔◌, ◌⊎◌, ◌+◌, ◌-◌, [], Some, None, true, false, length, map, nat_lt, replicate, slice_get, option_copied, ℕ, if◌then◌else◌};
ghost use Rattle.std.specs.Prelude.{IfOk, IfErr, IfNone, OnErr, OnOk, IsErrOf, IsTrue, slice_index, slice_index_or};
ghost use Rattle.std.specs.List.{range_with_len};
ghost use Rattle.std.specs.FinMap.{insert, empty};
ghost use Rattle.reg_names.specs.Names.{is_key_name};
ghost use Rattle.reg_model.specs.declared.limits.TheConstants.{NUMBERS_LIMIT, SESSIONS_LIMIT};
ghost use Rattle.reg_arena.specs.Arena.{IsSound};
ghost use Rattle.reg_model.specs.declared.statuses.TheConstants.{BAD_DATABASE};
ghost use Rattle.reg_model.specs.declared.answer.AnswerBody.TheVariants.{Refused};
ghost use Rattle.reg_model.specs.Callbacks.{change_status};
ghost use Rattle.reg_model.specs.Causes.{change_cause};
ghost use Rattle.reg_model.specs.Histories.{IsLegal, count_of, replay, pending};
ghost use Rattle.reg_model.specs.Replies.{refusal};
ghost use Rattle.reg_journal.specs.Kept.{Seat, IsCurrent, row_of, seat, total_of};
ghost use Rattle.reg_tree.specs.TreeKeys.{made_root, IsWholeTree};
ghost use Rattle.reg_tree.specs.NewHive.{IsNewHive};
ghost use Rattle.reg_notify.specs.Tables.{told_to, taken_by};
ghost use Rattle.reg_callbacks.specs.declared.callbacks.TheConstants.{REGISTRATIONS_LIMIT};
ghost use Rattle.reg_callbacks.specs.Rows.{is_falling, is_among, IsOneMore};
ghost use Rattle.reg_callbacks.specs.Lists.{rows_of, altitudes_of, cookies_of, made_of};
ghost use Rattle.reg_calls.specs.Cuts.{fault_of_cut, IsCut};
ghost use Rattle.reg_calls.specs.Rooms.{IsValueRead, IsKeyRead, TellsValue, TellsKey};
ghost use Rattle.reg_calls.specs.Views.{next_of, state, told_in, IsApplied, IsRead, IsHive, IsNoticeTaken};

use crate::cut::CutFault;
use crate::enum_key::KeyTold;
use crate::hive_core::{Core, refuse};
use crate::query_value::ValueTold;
use reg_arena::Arena;
use reg_callbacks::{Callback, CallbackFault, Callbacks, Cookie};
use reg_heap::limits::DESCRIPTOR_LIMIT;
use reg_journal::{SeatFault, Share};
use reg_model::statuses::BAD_DATABASE;
use reg_model::{
    Answer, AnswerBody, Bytes, Call, Change, ChangeReply, Entry, Notice, Outcome, Query, Step,
};
use reg_names::check_key_name;
use reg_tree::Tree;
use std::alloc::Global;
use thiserror::Error;

/// Why a hive wasn't made; the first that holds.
#[derive(Clone, Copy, Debug, PartialEq, Eq, Error)]
pub enum NewFault {
    /// The root's name is no key name.
    #[error("the root's name is no key name")]
    Name,
    /// The descriptor is empty or above 65,535 bytes.
    #[error("the descriptor is empty or too long")]
    Descriptor,
    /// A growth was refused.
    #[error("no memory")]
    Memory,
}

/// Why a run wasn't begun; the first that holds.
#[derive(Clone, Copy, Debug, PartialEq, Eq, Error)]
pub enum RunFault {
    /// A step's session has no share in its place, or one whose count isn't the session's row.
    #[error("a session of the steps has no share in its place, or one that isn't current")]
    Session,
    /// There is no memory for the list of outcomes.
    #[error("no memory for the outcomes")]
    Memory,
}

/// A hive: a tree of keys in the bytes of its bins, its open handles, the watches that its sessions asked for, the journal of its
/// accepted changes, and its callbacks: boxes, or values of one type.
#[derive(Drop)]
pub struct Hive<C = Box<dyn Callback + Send>> {
    core: Core,
    callbacks: Callbacks<C>,
}

impl<C: Callback> Hive<C> {
    ghost use Rattle.reg_calls.specs.HiveView.{view_of, noted_of, callbacks_of, asks_of, new_size};
    ghost use Rattle.reg_calls.specs.Runs.{Run, IsStep};
    ghost use Rattle.reg_calls.specs.Seats.{IsSeated, HaveSeats, HaveCounted};

    /// A hive of one root: the name as given, mark 8 (no delete), no class, the descriptor, the moment (100 ns units since 1601) and no
    /// values. No handle is open, no watch is pending, no session has a seat, and the journal is empty. `Name` where the name is none that
    /// a key may have, else `Descriptor` where that is empty or above 65,535 bytes, else `Memory`. It has one bin, of the least size that
    /// holds its root's key node and security, and these two stand there (clause `cells`).
    pub fn new(
        alloc: Global,
        root_name: &[u8],
        descriptor: &[u8],
        moment: u64,
    ) -> Result<Hive<C>, NewFault>
        ensures origin { IfOk result (λ h. (view_of h).origin ≡ insert empty [] (made_root root_name.now descriptor.now moment)) }
        ensures journal { IfOk result (λ h. (view_of h).journal ≡ []) }
        ensures base { IfOk result (λ h. (view_of h).base ≡ 0) }
        ensures before { IfOk result (λ h. (view_of h).before ≡ []) }
        ensures noted { IfOk result (λ h. noted_of h ≡ []) }
        ensures hive { IfOk result (λ h. IsHive (view_of h)) }
        ensures taken { IfOk result (λ h. (s : ℕ) → taken_by (view_of h).watches s ≡ 0) }
        ensures callbacks { IfOk result (λ h. (rows_of (callbacks_of h) ≡ []) × (made_of (callbacks_of h) ≡ 0)) }
        ensures bin { IfOk result (λ h. length (view_of h).keys.bins.bytes ≡ new_size (length root_name.now) (length descriptor.now)) }
        ensures cells { IfOk result (λ h. IsNewHive (view_of h).keys root_name.now descriptor.now moment) }
        ensures name { IsErrOf result NewFault.Name ↔ (is_key_name root_name.now ≡ false) }
        ensures descriptor { IsErrOf result NewFault.Descriptor
            ↔ ((is_key_name root_name.now ≡ true)
            × ((length descriptor.now ≡ 0) ⊎ (DESCRIPTOR_LIMIT < length descriptor.now))) }
    {
        if check_key_name(root_name).is_err() {
            return Err(NewFault::Name);
        }
        if descriptor.is_empty() || descriptor.len() > DESCRIPTOR_LIMIT {
            return Err(NewFault::Descriptor);
        }
        let Ok(tree) = Tree::new(alloc, root_name, descriptor, moment) else {
            return Err(NewFault::Memory);
        };
        match Hive::from_tree(alloc, tree) {
            Ok(hive) => Ok(hive),
            Err(_) => Err(NewFault::Memory),
        }
    }

    /// A hive of a tree that was built elsewhere: its keys in their bins as they are. No handle is open, no watch is pending, no
    /// session has a seat, and the journal is empty. `Memory` is its only fault.
    pub fn from_tree(alloc: Global, tree: Tree) -> Result<Hive<C>, NewFault>
        ensures origin { IfOk result (λ h. (view_of h).origin ≡ tree.tree) }
        ensures journal { IfOk result (λ h. (view_of h).journal ≡ []) }
        ensures base { IfOk result (λ h. (view_of h).base ≡ 0) }
        ensures before { IfOk result (λ h. (view_of h).before ≡ []) }
        ensures noted { IfOk result (λ h. noted_of h ≡ []) }
        ensures keys { IfOk result (λ h. (view_of h).keys ≡ tree) }
        ensures hive { IfOk result (λ h. IsHive (view_of h)) }
        ensures taken { IfOk result (λ h. (s : ℕ) → taken_by (view_of h).watches s ≡ 0) }
        ensures callbacks { IfOk result (λ h. (rows_of (callbacks_of h) ≡ []) × (made_of (callbacks_of h) ≡ 0)) }
        ensures err { IfErr result (λ fault. fault ≡ NewFault.Memory) }
    {
        // Only for its clauses: what is true of every tree's keys.
        let _ = tree.root();
        match Core::new(alloc, tree) {
            Ok(core) => {
                let callbacks = Callbacks::new(alloc);
                Ok(Hive { core, callbacks })
            }
            Err(_) => Err(NewFault::Memory),
        }
    }

    /// How many changes the hive accepted, those that were cut among them: the number of the next entry. The rows of all sessions together
    /// are as many (clause `rows`). The journal begins with a number of at most 10^18 (clause `first`), and where that is 0 no session was
    /// told anything before (clause `began`). Its entries are legal: each was accepted after those before it (clause `legal`); and all else
    /// that is true of every hive is so of this one (clause `hive`).
    pub fn len(&self) -> usize
        ensures len { result ≡ next_of (view_of self.now) }
        ensures first { (view_of self.now).base ≤ NUMBERS_LIMIT }
        ensures rows { next_of (view_of self.now) ≡ total_of (noted_of self.now) (view_of self.now).journal }
        ensures began { (view_of self.now).base ≡ 0 → (s : ℕ) → slice_index_or (view_of self.now).before s [] ≡ [] }
        ensures legal { IsLegal (view_of self.now).base (view_of self.now).origin (view_of self.now).journal }
        ensures hive { IsHive (view_of self.now) }
    {
        self.core.len()
    }

    /// How many handles are open, of all sessions. They are those of the journal's replay.
    pub fn open_handles(&self) -> usize
        ensures number { result ≡ length (view_of self.now).handles }
        ensures replayed { (view_of self.now).handles ≡ (replay (view_of self.now).origin (view_of self.now).journal).handles }
    {
        self.core.open_handles()
    }

    /// How many watches are pending, of all sessions. They are those that the journal leaves pending (clause `replayed`), and each
    /// session was told just what it was told before the journal began and the notices that this tells it (clause `told`).
    pub fn pending(&self) -> usize
        ensures number { result ≡ length (view_of self.now).watches.pending }
        ensures replayed { (view_of self.now).watches.pending ≡ pending (view_of self.now).origin (view_of self.now).journal }
        ensures told { (s : ℕ) → told_to (view_of self.now).watches s ≡ told_in (view_of self.now) s }
    {
        self.core.pending()
    }

    /// All notices that a session was told, in order, whether they were handed out or not. A number that is no session's was told none.
    pub fn fired(&self, session: u8) -> &[Notice]
        ensures { result.now ≡ told_in (view_of self.now) session }
    {
        self.core.fired(session)
    }

    /// How many of the notices that a session was told weren't handed out yet.
    pub fn kept(&self, session: u8) -> u64
        ensures { result + taken_by (view_of self.now).watches session ≡ length (told_in (view_of self.now) session) }
    {
        self.core.kept(session)
    }

    /// The next notice of a session, which [`Hive::take_notice`] hands out: the first of those that it was told that wasn't handed out
    /// yet. `None` exactly where all were.
    pub fn first_notice(&self, session: u8) -> Option<Notice>
        ensures { result ≡ slice_get (told_in (view_of self.now) session) (taken_by (view_of self.now).watches session) }
    {
        self.core.first_notice(session)
    }

    /// Hands a session its next notice: the first of those that it was told that wasn't handed out yet. `None` exactly where
    /// all were, as for a session that never asked for any. Takes no memory, and changes nothing but what is handed out next.
    pub fn take_notice(&mut self, session: u8) -> Option<Notice>
        ensures notice { IsNoticeTaken (view_of self.old) (view_of self.new) session result }
        ensures noted { noted_of self.new ≡ noted_of self.old }
        ensures callbacks { callbacks_of self.new ≡ callbacks_of self.old }
    {
        self.core.take_notice(session)
    }

    /// The entry of that number, where the hive's first one of all has 0; `None` where the journal doesn't keep it: it was cut, or there
    /// was none yet.
    pub fn entry(&self, number: usize) -> Option<&Entry>
        ensures { option_copied result ≡ (if nat_lt number (view_of self.now).base then None else
            slice_get (view_of self.now).journal (number - (view_of self.now).base)) }
    {
        self.core.entry(number)
    }

    /// The entries that the journal keeps, in order.
    pub fn entries(&self) -> &[Entry]
        ensures { result.now ≡ (view_of self.now).journal }
    {
        self.core.entries()
    }

    /// Why the journal can't begin anew, if something stands against it: `HandlesOpen` where handles are open, with how many; else
    /// `Numbers` where the hive has had more than 10^18 entries.
    pub fn cut_fault(&self) -> Option<CutFault>
        ensures { result ≡ fault_of_cut (view_of self.now) }
    {
        self.core.cut_fault()
    }

    /// Has the journal begin anew, and answers how many entries were cut: the tree as it stands becomes its origin, and the numbers go on.
    /// All that a session was told before stays told, so that a notice that wasn't handed out yet still is. Keys, watches and callbacks are
    /// as they were, and so are the rows of the book: a share whose count is its row is of use as before (clause `current`). No watch is
    /// pending then (clause `cut`). The fault is that of [`Hive::cut_fault`] (clauses `fault` and `clear`); then nothing changed. Takes
    /// no memory.
    pub fn cut(&mut self) -> Result<u64, CutFault>
        ensures count { IfOk result (λ count. count ≡ length (view_of self.old).journal) }
        ensures cut { OnOk result (IsCut (view_of self.old) (view_of self.new)) }
        ensures seats { length (noted_of self.new) ≡ length (noted_of self.old) }
        ensures noted { OnOk result ((session : ℕ) →
            slice_index (noted_of self.new) session ≡ row_of (noted_of self.old) (view_of self.old).journal session) }
        ensures current { (share : Seat) → IsCurrent (noted_of self.old) (view_of self.old).journal share →
            IsCurrent (noted_of self.new) (view_of self.new).journal share }
        ensures callbacks { callbacks_of self.new ≡ callbacks_of self.old }
        ensures clear { OnOk result (fault_of_cut (view_of self.old) ≡ None) }
        ensures fault { IfErr result (λ fault. fault_of_cut (view_of self.old) ≡ Some fault) }
        ensures err { OnErr result (self.new ≡ self.old) }
    {
        self.core.cut()
    }

    /// The hive's bytes: its bins with all their cells, to be read byte by byte.
    ///
    /// Whatever calls came before, they are a whole hive, and it is that of the journal. The cells tile the bins; each allocated
    /// cell is reached from the root exactly as often as the references to it say, and each record is as it is written (clause
    /// `whole`); the tree that these records spell is that of the journal's replay (clauses `whole` and `tree`); and the free lists
    /// have precisely the free cells (clause `sound`).
    pub fn arena(&self) -> &Arena
        ensures bins { result.now ≡ (view_of self.now).keys.bins }
        ensures tree { (view_of self.now).keys.tree ≡ (replay (view_of self.now).origin (view_of self.now).journal).tree }
        ensures whole { IsWholeTree (view_of self.now).keys.bins.bytes (view_of self.now).keys.root (view_of self.now).keys.tree }
        ensures sound { IsSound (view_of self.now).keys.bins.bytes (view_of self.now).keys.bins.heads }
    {
        self.core.arena()
    }

    /// The hive's keys, to be read by reg_tree's own calls. They are those of the journal's replay (clause `tree`).
    pub fn tree(&self) -> &Tree
        ensures keys { result.now ≡ (view_of self.now).keys }
        ensures tree { (view_of self.now).keys.tree ≡ (replay (view_of self.now).origin (view_of self.now).journal).tree }
    {
        self.core.tree()
    }

    /// Gives the sessions below `n` their seats, once: a share of each, in order, that has counted no call. `Seated` where seats were
    /// given before, else `Count` where `n` is 0 or above 64, else `Memory`; then nothing changed. The calls of a session take its share.
    pub fn seat(&mut self, n: u8) -> Result<Vec<Share>, SeatFault>
        ensures callbacks { callbacks_of self.new ≡ callbacks_of self.old }
        ensures view { view_of self.new ≡ view_of self.old }
        ensures shares { IfOk result (λ shares. shares.items ≡ map (λ s. seat s 0) (range_with_len 0 n)) }
        ensures seated { OnOk result (noted_of self.new ≡ replicate n 0) }
        ensures never { OnOk result ((view_of self.old).base ≡ 0) }
        ensures first { OnOk result ((view_of self.old).journal ≡ []) }
        ensures err { OnErr result (self.new ≡ self.old) }
        ensures again { IsErrOf result SeatFault.Seated ↔ (noted_of self.old ≢ []) }
        ensures count { IsErrOf result SeatFault.Count ↔ ((noted_of self.old ≡ []) × ((n ≡ 0) ⊎ (SESSIONS_LIMIT < n))) }
    {
        self.core.seat(n)
    }

    /// How many changes of a session were accepted: its row in the journal's book, in which those that were cut are counted too. `None`
    /// where it has no seat, and then none was (clause `unseated`).
    pub fn row(&self, session: u8) -> Option<u64>
        ensures row { result ≡
            (if nat_lt session (length (noted_of self.now)) then Some (row_of (noted_of self.now) (view_of self.now).journal session) else None) }
        ensures unseated { IfNone result (count_of session (view_of self.now).journal ≡ 0) }
    {
        self.core.row(session)
    }

    /// How many sessions have seats: those below that number, at most 64.
    pub fn seats(&self) -> usize
        ensures seats { result ≡ length (noted_of self.now) }
        ensures few { result ≤ SESSIONS_LIMIT }
    {
        self.core.seats()
    }

    /// Answers a change of a share's session at a moment (100 ns units since 1601). An accepted change becomes the journal's next
    /// entry, and the share counts it; after a refusal, by the rules or by a callback, hive and share are as before. 1009 comes before all
    /// other refusals, exactly where the share's session has no seat or its row isn't the share's count: a share that is used only at the
    /// hive that gave it is always current. 8 and 1450 for space come only in place of an acceptance, and these, as 1009, where a callback
    /// answers them.
    pub fn apply(&mut self, share: &mut Share, moment: u64, change: Change) -> ChangeReply
        ensures order { is_falling (altitudes_of (callbacks_of self.old)) ≡ true }
        ensures callbacks { callbacks_of self.new ≡ callbacks_of self.old }
        ensures noted { noted_of self.new ≡ noted_of self.old }
        ensures applied { IsCurrent (noted_of self.old) (view_of self.old).journal share.old →
            IsApplied (asks_of C.answers self.old) (view_of self.old) (view_of self.new) share.old.session moment change result }
        ensures current { IsCurrent (noted_of self.old) (view_of self.old).journal share.old →
            IsCurrent (noted_of self.new) (view_of self.new).journal share.new }
        ensures session { share.new.session ≡ share.old.session }
        ensures stale { (IsCurrent (noted_of self.old) (view_of self.old).journal share.old → ⊥) →
            (result ≡ refusal BAD_DATABASE) × (view_of self.new ≡ view_of self.old) × (share.new ≡ share.old) }
    {
        if !self.core.is_current(share) {
            return refuse(BAD_DATABASE);
        }
        self.core.apply(&self.callbacks, share, moment, change)
    }

    /// Answers a question of a share's session. 1009 comes as of `apply`, before all other refusals. 8 comes only in place of an answer
    /// that holds a byte of a name, of data or of a descriptor, or where a callback answers it.
    pub fn read(&self, share: &Share, query: &Query) -> Answer
        ensures order { is_falling (altitudes_of (callbacks_of self.now)) ≡ true }
        ensures at { result.at ≡ next_of (view_of self.now) }
        ensures body { IsCurrent (noted_of self.now) (view_of self.now).journal share.now →
            IsRead (asks_of C.answers self.now) (state (view_of self.now)) share.now.session query.now result.body }
        ensures stale { (IsCurrent (noted_of self.now) (view_of self.now).journal share.now → ⊥) → result.body ≡ Refused BAD_DATABASE }
    {
        if !self.core.is_current(share) {
            return Answer {
                at: self.core.len() as u64,
                body: AnswerBody::Refused {
                    status: BAD_DATABASE,
                },
            };
        }
        self.core.read(&self.callbacks, share.session(), query)
    }

    /// Answers a QueryValue of a share's session for a value of that name, as `read` does, with the value's data written over the front of
    /// a room, which else stays as it was. A room of no byte asks for the size alone. 234 where the data has more bytes than the room, with
    /// its type and size. It takes no memory, so 8 comes only where a callback answers it.
    pub fn read_value(&self, share: &Share, handle: u64, name: Bytes, room: &mut [u8]) -> ValueTold
        ensures order { is_falling (altitudes_of (callbacks_of self.now)) ≡ true }
        ensures told { IsCurrent (noted_of self.now) (view_of self.now).journal share.now →
            IsValueRead (asks_of C.answers self.now) (state (view_of self.now)) share.now.session handle name result room.old room.new }
        ensures stale { (IsCurrent (noted_of self.now) (view_of self.now).journal share.now → ⊥) →
            TellsValue (Refused BAD_DATABASE) result room.old room.new }
    {
        if !self.core.is_current(share) {
            return ValueTold::refused(BAD_DATABASE);
        }
        self.core
            .read_value(&self.callbacks, share.session(), handle, name, room)
    }

    /// Answers an EnumKey of a share's session for the subkey at an index, as `read` does, with its name written over the front of a
    /// room, which else stays as it was. 234 where the name has more bytes than the room, with its size. It takes no memory, so 8 comes only
    /// where a callback answers it.
    pub fn read_subkey(&self, share: &Share, handle: u64, index: u32, room: &mut [u8]) -> KeyTold
        ensures order { is_falling (altitudes_of (callbacks_of self.now)) ≡ true }
        ensures told { IsCurrent (noted_of self.now) (view_of self.now).journal share.now →
            IsKeyRead (asks_of C.answers self.now) (state (view_of self.now)) share.now.session handle index result room.old room.new }
        ensures stale { (IsCurrent (noted_of self.now) (view_of self.now).journal share.now → ⊥) →
            TellsKey (Refused BAD_DATABASE) result room.old room.new }
    {
        if !self.core.is_current(share) {
            return KeyTold::refused(BAD_DATABASE);
        }
        self.core
            .read_subkey(&self.callbacks, share.session(), handle, index, room)
    }

    /// The refusal that a change of a share's session would meet at this moment (100 ns units since 1601), if there is one: 1009 as of
    /// `apply`, or the first cause in the order of the rules, in which the callbacks are asked. Takes no memory.
    pub fn cause(&self, share: &Share, moment: u64, change: &Change) -> Option<u32>
        ensures order { is_falling (altitudes_of (callbacks_of self.now)) ≡ true }
        ensures cause { IsCurrent (noted_of self.now) (view_of self.now).journal share.now →
            result ≡ change_cause (state (view_of self.now)) share.now.session change.now
            (change_status (asks_of C.answers self.now) (state (view_of self.now)).world share.now.session moment change.now) }
        ensures stale { (IsCurrent (noted_of self.now) (view_of self.now).journal share.now → ⊥) → result ≡ Some BAD_DATABASE }
    {
        if !self.core.is_current(share) {
            return Some(BAD_DATABASE);
        }
        self.core.cause(&self.callbacks, share, moment, change)
    }

    /// Whether a session has a share in its place whose count is the session's row.
    fn is_seated(&self, shares: &[Share], session: u8) -> bool
        ensures { IsTrue result ↔ IsSeated (noted_of self.now) (view_of self.now).journal shares.now session }
    {
        let place = session as usize;
        if place >= shares.len() {
            return false;
        }
        let share = &shares[place];
        share.session() == session && self.core.is_current(share)
    }

    /// Whether all sessions of some steps have.
    fn have_seats(&self, shares: &[Share], steps: &[Step]) -> bool
        ensures { IsTrue result ↔ HaveSeats (noted_of self.now) (view_of self.now).journal shares.now steps.now }
    {
        for step in steps {
            if !self.is_seated(shares, step.session) {
                return false;
            }
        }
        true
    }

    /// Answers a step by the share in its session's place.
    fn answer(&mut self, shares: &mut Vec<Share>, step: Step) -> Outcome
        requires { IsSeated (noted_of self.old) (view_of self.old).journal shares.old.items step.session }
        ensures callbacks { callbacks_of self.new ≡ callbacks_of self.old }
        ensures noted { noted_of self.new ≡ noted_of self.old }
        ensures step { IsStep (asks_of C.answers self.old) (view_of self.old) step result (view_of self.new) }
        ensures counted { HaveCounted (view_of self.old).journal (view_of self.new).journal shares.old.items shares.new.items }
    {
        let Step {
            session,
            moment,
            call,
        } = step;
        let place = session as usize;
        match call {
            Call::Change(change) => {
                Outcome::Changed(self.apply(&mut shares[place], moment, change))
            }
            Call::Query(query) => Outcome::Answered(self.read(&shares[place], &query)),
        }
    }

    /// Answers calls in order, each by the share in its session's place, and tells of each what `apply` or `read` would. Each share
    /// counts the entries of the session of its place (clause `counted`). `Session` exactly where a step's session has no share in its
    /// place, or one whose count isn't the session's row; else `Memory` where there is none for the answers: both before the first call,
    /// and nothing changed.
    pub fn run(
        &mut self,
        shares: &mut Vec<Share>,
        steps: Vec<Step>,
    ) -> Result<Vec<Outcome>, RunFault>
        ensures order { is_falling (altitudes_of (callbacks_of self.old)) ≡ true }
        ensures callbacks { callbacks_of self.new ≡ callbacks_of self.old }
        ensures noted { noted_of self.new ≡ noted_of self.old }
        ensures ok { IfOk result (λ outcomes. Run (asks_of C.answers self.old) (view_of self.old) steps.items outcomes.items (view_of self.new)) }
        ensures counted { OnOk result (HaveCounted (view_of self.old).journal (view_of self.new).journal shares.old.items shares.new.items) }
        ensures session { IsErrOf result RunFault.Session ↔ (HaveSeats (noted_of self.old) (view_of self.old).journal shares.old.items steps.items → ⊥) }
        ensures err { OnErr result ((self.new ≡ self.old) × (shares.new.items ≡ shares.old.items)) }
    {
        if !self.have_seats(shares.as_slice(), steps.as_slice()) {
            return Err(RunFault::Session);
        }
        let Ok(mut outcomes) = Vec::with_capacity(self.core.alloc(), steps.len()) else {
            return Err(RunFault::Memory);
        };
        for step in steps {
            let outcome = self.answer(shares, step);
            match outcomes.push(outcome) {
                Ok(()) => {}
                Err(_) => unreachable!(),
            }
        }
        Ok(outcomes)
    }

    /// Registers a callback at an altitude, and answers its cookie. From then on it is asked of each call but Close, unless one at a
    /// higher altitude refuses, and before those at lower ones, at its place in the order of refusals: after 1009 and those for the
    /// handle, bad arguments, rights and what is counted, before the call's own. `Full` where 65,536 registrations were made, else
    /// `AltitudeTaken` where a callback is at that altitude, else `Memory`; then nothing changed, and the callback comes back.
    pub fn register(&mut self, callback: C, altitude: u32) -> Result<Cookie, CallbackFault<C>>
        ensures view { view_of self.new ≡ view_of self.old }
        ensures noted { noted_of self.new ≡ noted_of self.old }
        ensures added { IfOk result (λ cookie. IsOneMore (record { altitude = altitude; cookie = cookie.number; callback = callback })
            (rows_of (callbacks_of self.old)) (rows_of (callbacks_of self.new))) }
        ensures order { is_falling (altitudes_of (callbacks_of self.new)) ≡ true }
        ensures cookie { IfOk result (λ cookie. cookie.number ≡ made_of (callbacks_of self.old)) }
        ensures made { IfOk result (λ cookie. made_of (callbacks_of self.new) ≡ made_of (callbacks_of self.old) + 1) }
        ensures full { IsErrOf result (CallbackFault.Full callback) ↔ (made_of (callbacks_of self.old) ≡ REGISTRATIONS_LIMIT) }
        ensures altitude_taken { IsErrOf result (CallbackFault.AltitudeTaken callback)
            ↔ ((made_of (callbacks_of self.old) < REGISTRATIONS_LIMIT) × (is_among altitude (altitudes_of (callbacks_of self.old)) ≡ true)) }
        ensures returned { IfErr result (λ fault. (fault ≡ CallbackFault.Full callback)
            ⊎ (fault ≡ CallbackFault.AltitudeTaken callback)
            ⊎ (fault ≡ CallbackFault.Memory callback)) }
        ensures err { OnErr result ((rows_of (callbacks_of self.new) ≡ rows_of (callbacks_of self.old))
            × (made_of (callbacks_of self.new) ≡ made_of (callbacks_of self.old))) }
    {
        self.callbacks.register(callback, altitude)
    }

    /// Takes out the callback of a cookie, and answers it; it is asked no more. `NoSuchCookie` where none has it; then nothing
    /// changed. Takes no memory.
    pub fn unregister(&mut self, cookie: Cookie) -> Result<C, CallbackFault<C>>
        ensures view { view_of self.new ≡ view_of self.old }
        ensures noted { noted_of self.new ≡ noted_of self.old }
        ensures taken { IfOk result (λ callback. (altitude : ℕ)
            × IsOneMore (record { altitude = altitude; cookie = cookie.number; callback = callback })
            (rows_of (callbacks_of self.new)) (rows_of (callbacks_of self.old))) }
        ensures gone { IfOk result (λ callback. is_among cookie.number (cookies_of (callbacks_of self.new)) ≡ false) }
        ensures made { made_of (callbacks_of self.new) ≡ made_of (callbacks_of self.old) }
        ensures no_such_cookie { IsErrOf result CallbackFault.NoSuchCookie
            ↔ (is_among cookie.number (cookies_of (callbacks_of self.old)) ≡ false) }
        ensures fault { IfErr result (λ fault. fault ≡ CallbackFault.NoSuchCookie) }
        ensures err { OnErr result (callbacks_of self.new ≡ callbacks_of self.old) }
    {
        self.callbacks.unregister(cookie)
    }
}
