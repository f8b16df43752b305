//! A hive without its callbacks.
ghost use Rattle.std.specs.Prelude.{ℕ, ◌≡◌, ◌≢◌, ◌<◌, ◌≤◌, ◌↔◌, ◌⊎◌, [], Some, None, length, map, nat_lt, replicate, slice_get, option_copied, ◌+◌, ◌-◌, false, if◌then◌else◌, slice_index, slice_index_or, IfErr, IfNone, IfOk, IsErrOf, IsTrue, OnOk, OnErr};
ghost use Rattle.std.specs.List.{range_with_len};
ghost use Rattle.reg_heap.specs.Trees.{IsTree, IsWithinLimits};
ghost use Rattle.reg_arena.specs.Arena.{IsSound};
ghost use Rattle.reg_model.specs.declared.limits.TheConstants.{JOURNAL_LIMIT, NUMBERS_LIMIT, SESSIONS_LIMIT};
ghost use Rattle.reg_model.specs.Causes.{change_cause};
ghost use Rattle.reg_model.specs.Callbacks.{change_status};
ghost use Rattle.reg_model.specs.Histories.{count_of};
ghost use Rattle.reg_model.specs.Replies.{refusal};
ghost use Rattle.reg_tree.specs.TreeKeys.{IsWholeTree};
ghost use Rattle.reg_journal.specs.Kept.{Seat, IsCurrent, row_of, seat, total_of};
ghost use Rattle.reg_callbacks.specs.Asking.{asks};
ghost use Rattle.reg_callbacks.specs.Lists.{answers_of};
ghost use Rattle.reg_calls.specs.Shortages.{is_closing};
ghost use Rattle.reg_calls.specs.Cuts.{fault_of_cut, IsCut};
ghost use Rattle.reg_calls.specs.Rooms.{IsValueRead, IsKeyRead};
ghost use Rattle.reg_calls.specs.Views.{next_of, state, told_in, IsApplied, IsRead, IsHive, IsNoticeTaken};

use crate::cut::CutFault;
use crate::enum_key::KeyTold;
use crate::query_value::{ValueTold, asked_room, size_in_32_bits};
use crate::quiet::Quiet;
use crate::store::{JournalEnd, Store};
use reg_arena::Arena;
use reg_callbacks::{Callback, Callbacks};
use reg_handles::Handles;
use reg_journal::{Journal, SeatFault, Share};
use reg_model::limits::NUMBERS_LIMIT;
use reg_model::statuses::NOT_ENOUGH_MEMORY;
use reg_model::{Answer, Bytes, Change, ChangeReply, Entry, Notice, Query};
use reg_notify::Watches;
use reg_tree::Tree;
use std::alloc::{AllocError, Global};
use std::marker::Model;
use std::snapshot::Snapshot;

/// What a hive is without its callbacks: the tree, the open handles, the watches, and the journal with its book.
pub struct Core {
    alloc: Global,
    origin: Snapshot<Tree>,
    /// The watches as they were when the journal began: what each session was told before it.
    told: Snapshot<Watches>,
    store: Store,
    journal: Journal,
    quiet: Quiet,
}

// By hand, so that a caller that drops a hive has one call for all but the callbacks, and none for each of its parts.
impl Drop for Core {
    fn drop(self) {
        let Core {
            alloc: _,
            origin: _,
            told: _,
            store: _,
            journal: _,
            quiet: _,
        } = self;
    }
}

impl Model for Core {
    ghost use Rattle.std.specs.Prelude.{◌≡◌, ◌+◌, length, vec_len};
    ghost use Rattle.reg_calls.specs.declared.quiet.TheConstants.{REMEMBERED};
    ghost use Rattle.reg_calls.specs.Internal.QuietKeys.{AreUnhit};
    ghost use Rattle.reg_calls.specs.Views.{Booked, HiveInvariant, coded_booked, view_with};

    ghost Value = { Booked };

    ghost coded = { coded_booked };

    ghost view = { λ h. record {
      view = view_with h.origin.value.tree h.journal.base h.told.value.told h.journal.entries h.store;
      noted = h.journal.noted;
    } };

    ghost invariant = { λ h. (vec_len h.quiet.rows ≡ REMEMBERED) × AreUnhit (h.journal.base + length h.journal.entries) h.store h.quiet
        × HiveInvariant h.origin.value.tree h.journal.base h.told.value.told h.journal.entries h.store h.journal.room };
}

/// The reply of a refusal.
pub fn refuse(status: u32) -> ChangeReply
    ensures { result ≡ refusal status }
{
    ChangeReply {
        status,
        number: None,
        handle: None,
        disposition: None,
    }
}

/// Whether a change closes a handle. It takes no memory: room for its entry was kept when the handle was opened.
fn closes(change: &Change) -> bool
    ensures { result ≡ is_closing change.now }
{
    match change {
        Change::Close { .. } => true,
        Change::OpenRoot { .. }
        | Change::OpenKey { .. }
        | Change::CreateKey { .. }
        | Change::SetValue { .. }
        | Change::DeleteValue { .. }
        | Change::DeleteKey { .. }
        | Change::DeleteTree { .. }
        | Change::SetSecurity { .. }
        | Change::Notify { .. } => false,
    }
}

/// Keeps room in the journal for a change's entry, and for the closing of each handle that is open then.
fn keep_room(journal: &mut Journal, handles: usize, change: &Change) -> Result<(), AllocError>
    requires { handles ≤ JOURNAL_LIMIT }
    ensures noted { journal.new.noted ≡ journal.old.noted }
    ensures base { journal.new.base ≡ journal.old.base }
    ensures entries { journal.new.entries ≡ journal.old.entries }
    ensures room { journal.old.room ≤ journal.new.room }
    ensures ok { OnOk result (is_closing change.now ≡ false → handles + 2 ≤ journal.new.room) }
    ensures err { OnErr result (is_closing change.now ≡ false) }
{
    if closes(change) {
        return Ok(());
    }
    journal.reserve(handles + 2)
}

/// Why the journal can't begin anew where so many handles are open.
fn handles_open(count: usize) -> CutFault
    requires { count ≤ JOURNAL_LIMIT }
    ensures { result ≡ CutFault.HandlesOpen count }
{
    CutFault::HandlesOpen {
        count: count as u32,
    }
}

/// Where a journal ends.
fn end_of(journal: &Journal) -> JournalEnd
    ensures kept { result.kept ≡ length journal.now.entries }
    ensures next { result.next ≡ journal.now.base + length journal.now.entries }
{
    JournalEnd {
        kept: journal.kept(),
        next: journal.len() as u64,
    }
}

impl Core {
    ghost use Rattle.reg_model.specs.Histories.{IsLegal, replay, pending};
    ghost use Rattle.reg_notify.specs.Tables.{told_to, taken_by};

    /// A hive of the keys of a tree, with no handle open, no watch and an empty journal. The tree as it is now is its origin. Its one
    /// fault is that memory was refused.
    pub fn new(alloc: Global, tree: Tree) -> Result<Core, AllocError>
        requires tree { IsTree tree.tree }
        requires limits { IsWithinLimits tree.tree }
        ensures origin { IfOk result (λ core. core.view.origin ≡ tree.tree) }
        ensures journal { IfOk result (λ core. core.view.journal ≡ []) }
        ensures base { IfOk result (λ core. core.view.base ≡ 0) }
        ensures before { IfOk result (λ core. core.view.before ≡ []) }
        ensures noted { IfOk result (λ core. core.noted ≡ []) }
        ensures keys { IfOk result (λ core. core.view.keys ≡ tree) }
        ensures hive { IfOk result (λ core. IsHive core.view) }
        ensures handles { IfOk result (λ core. core.view.handles ≡ []) }
        ensures pending { IfOk result (λ core. core.view.watches.pending ≡ []) }
        ensures told { IfOk result (λ core. (s : ℕ) → told_to core.view.watches s ≡ []) }
        ensures taken { IfOk result (λ core. (s : ℕ) → taken_by core.view.watches s ≡ 0) }
    {
        // Only for its clauses: what is true of every tree's cells.
        let _ = tree.arena();
        let origin = Snapshot::of(&tree);
        let watches = Watches::new(alloc)?;
        let told = Snapshot::of(&watches);
        let quiet = Quiet::new(alloc)?;
        Ok(Core {
            alloc,
            origin,
            told,
            store: Store {
                tree,
                handles: Handles::new(alloc),
                watches,
            },
            journal: Journal::new(alloc),
            quiet,
        })
    }

    /// What its memory is taken from.
    pub fn alloc(&self) -> Global {
        self.alloc
    }

    /// How many entries the hive has had: the number of the next one. The rows of all sessions together are as many (clause `rows`).
    pub fn len(&self) -> usize
        ensures len { result ≡ next_of self.now.view }
        ensures first { self.now.view.base ≤ NUMBERS_LIMIT }
        ensures rows { next_of self.now.view ≡ total_of self.now.noted self.now.view.journal }
        ensures began { self.now.view.base ≡ 0 → (s : ℕ) → slice_index_or self.now.view.before s [] ≡ [] }
        ensures legal { IsLegal self.now.view.base self.now.view.origin self.now.view.journal }
        ensures hive { IsHive self.now.view }
    {
        self.journal.len()
    }

    /// How many handles are open, of all sessions.
    pub fn open_handles(&self) -> usize
        ensures number { result ≡ length self.now.view.handles }
        ensures replayed { self.now.view.handles ≡ (replay self.now.view.origin self.now.view.journal).handles }
    {
        self.store.handles.len()
    }

    /// How many watches are pending, of all sessions.
    pub fn pending(&self) -> usize
        ensures number { result ≡ length self.now.view.watches.pending }
        ensures replayed { self.now.view.watches.pending ≡ pending self.now.view.origin self.now.view.journal }
        ensures told { (s : ℕ) → told_to self.now.view.watches s ≡ told_in self.now.view s }
    {
        self.store.watches.len()
    }

    /// All notices that a session was told, in order.
    pub fn fired(&self, session: u8) -> &[Notice]
        ensures { result.now ≡ told_in self.now.view session }
    {
        self.store.watches.told(session)
    }

    /// How many of them it didn't take yet.
    pub fn kept(&self, session: u8) -> u64
        ensures { result + taken_by self.now.view.watches session ≡ length (told_in self.now.view session) }
    {
        self.store.watches.kept(session)
    }

    /// The first that it didn't take yet.
    pub fn first_notice(&self, session: u8) -> Option<Notice>
        ensures { result ≡ slice_get (told_in self.now.view session) (taken_by self.now.view.watches session) }
    {
        self.store.watches.first(session)
    }

    /// The session's next notice, if it was told one more than it took.
    pub fn take_notice(&mut self, session: u8) -> Option<Notice>
        ensures notice { IsNoticeTaken self.old.view self.new.view session result }
        ensures noted { self.new.noted ≡ self.old.noted }
    {
        self.store.watches.take(session)
    }

    /// Why the journal can't begin anew, if something stands against it.
    pub fn cut_fault(&self) -> Option<CutFault>
        ensures { result ≡ fault_of_cut self.now.view }
    {
        let open = self.store.handles.len();
        if open > 0 {
            return Some(handles_open(open));
        }
        if self.journal.len() as u64 > NUMBERS_LIMIT {
            return Some(CutFault::Numbers);
        }
        None
    }

    /// Has the journal begin anew with the tree as it stands. Answers how many entries were cut.
    pub fn cut(&mut self) -> Result<u64, CutFault>
        ensures count { IfOk result (λ count. count ≡ length self.old.view.journal) }
        ensures cut { OnOk result (IsCut self.old.view self.new.view) }
        ensures seats { length self.new.noted ≡ length self.old.noted }
        ensures noted { OnOk result ((session : ℕ) → slice_index self.new.noted session ≡ row_of self.old.noted self.old.view.journal session) }
        ensures current { (share : Seat) → IsCurrent self.old.noted self.old.view.journal share → IsCurrent self.new.noted self.new.view.journal share }
        ensures clear { OnOk result (fault_of_cut self.old.view ≡ None) }
        ensures fault { IfErr result (λ fault. fault_of_cut self.old.view ≡ Some fault) }
        ensures err { OnErr result (self.new ≡ self.old) }
    {
        match self.cut_fault() {
            Some(fault) => return Err(fault),
            None => {}
        }
        // Only for its clauses: what is true of every tree's keys.
        let _ = self.store.tree.root();
        self.origin = Snapshot::of(&self.store.tree);
        self.told = Snapshot::of(&self.store.watches);
        Ok(self.journal.cut() as u64)
    }

    /// The journal's entry of that number, if it keeps one.
    pub fn entry(&self, number: usize) -> Option<&Entry>
        ensures { option_copied result ≡
            (if nat_lt number self.now.view.base then None else slice_get self.now.view.journal (number - self.now.view.base)) }
    {
        self.journal.entry(number)
    }

    /// The journal's entries that are kept, in order.
    pub fn entries(&self) -> &[Entry]
        ensures { result.now ≡ self.now.view.journal }
    {
        self.journal.entries()
    }

    /// The bins with their cells: whole, and spelling the tree of the journal's replay.
    pub fn arena(&self) -> &Arena
        ensures bins { result.now ≡ self.now.view.keys.bins }
        ensures tree { self.now.view.keys.tree ≡ (replay self.now.view.origin self.now.view.journal).tree }
        ensures whole { IsWholeTree self.now.view.keys.bins.bytes self.now.view.keys.root self.now.view.keys.tree }
        ensures sound { IsSound self.now.view.keys.bins.bytes self.now.view.keys.bins.heads }
    {
        self.store.tree.arena()
    }

    /// The keys of the journal's replay.
    pub fn tree(&self) -> &Tree
        ensures keys { result.now ≡ self.now.view.keys }
        ensures tree { self.now.view.keys.tree ≡ (replay self.now.view.origin self.now.view.journal).tree }
    {
        &self.store.tree
    }

    /// Gives the sessions below `n` their seats, once.
    pub fn seat(&mut self, n: u8) -> Result<Vec<Share>, SeatFault>
        ensures shares { IfOk result (λ shares. shares.items ≡ map (λ s. seat s 0) (range_with_len 0 n)) }
        ensures seated { OnOk result (self.new.noted ≡ replicate n 0) }
        ensures view { self.new.view ≡ self.old.view }
        ensures never { OnOk result (self.old.view.base ≡ 0) }
        ensures first { OnOk result (self.old.view.journal ≡ []) }
        ensures err { OnErr result (self.new ≡ self.old) }
        ensures again { IsErrOf result SeatFault.Seated ↔ (self.old.noted ≢ []) }
        ensures count { IsErrOf result SeatFault.Count ↔ ((self.old.noted ≡ []) × ((n ≡ 0) ⊎ (SESSIONS_LIMIT < n))) }
    {
        self.journal.seat(n)
    }

    /// How many entries a session has had; `None` where it has no seat.
    pub fn row(&self, session: u8) -> Option<u64>
        ensures row { result ≡ (if nat_lt session (length self.now.noted) then Some (row_of self.now.noted self.now.view.journal session) else None) }
        ensures unseated { IfNone result (count_of session self.now.view.journal ≡ 0) }
    {
        self.journal.row(session)
    }

    /// How many sessions have seats.
    pub fn seats(&self) -> usize
        ensures seats { result ≡ length self.now.noted }
        ensures few { result ≤ SESSIONS_LIMIT }
    {
        self.journal.seats()
    }

    /// Whether the share's session has a seat whose row is the share's count.
    pub fn is_current(&self, share: &Share) -> bool
        ensures { IsTrue result ↔ IsCurrent self.now.noted self.now.view.journal share.now }
    {
        self.journal.is_current(share)
    }

    /// Answers a change of a share whose count is its row: refused by its cause; or made, its watches told, noted as the journal's next
    /// entry and counted in the share; or given up for want of memory or space.
    pub fn apply<C: Callback>(
        &mut self,
        callbacks: &Callbacks<C>,
        share: &mut Share,
        moment: u64,
        change: Change,
    ) -> ChangeReply
        requires { IsCurrent self.old.noted self.old.view.journal share.old }
        ensures applied { IsApplied (asks (answers_of C.answers callbacks.now)) self.old.view self.new.view share.old.session moment change result }
        ensures noted { self.new.noted ≡ self.old.noted }
        ensures current { IsCurrent self.new.noted self.new.view.journal share.new }
        ensures session { share.new.session ≡ share.old.session }
    {
        let session = share.session();
        let end = end_of(&self.journal);
        let admitted = match self
            .store
            .admit(callbacks, self.alloc, end, session, moment, &change)
        {
            Ok(admitted) => admitted,
            Err(refusal) => return refuse(refusal.status()),
        };
        let handles = self.store.handles.len();
        match keep_room(&mut self.journal, handles, &change) {
            Ok(()) => {}
            Err(_) => return refuse(NOT_ENOUGH_MEMORY),
        }
        match self.store.carry_out(&mut self.quiet, self.alloc, session, moment, end, admitted) {
            Ok(reply) => {
                // Only for its clauses: what is true of every tree's cells.
                let _ = self.store.tree.arena();
                let entry = Entry {
                    number: end.next,
                    session,
                    moment,
                    change,
                    reply,
                };
                self.journal.append(share, entry);
                reply
            }
            Err(lack) => {
                // Here and not where it goes out of scope, so that its variants are no ways of their own in the proof.
                drop(change);
                refuse(lack.status())
            }
        }
    }

    /// The first cause for which a change of a share's session is refused, if there is one; the callbacks are asked. Takes no memory.
    pub fn cause<C: Callback>(
        &self,
        callbacks: &Callbacks<C>,
        share: &Share,
        moment: u64,
        change: &Change,
    ) -> Option<u32>
        ensures { result ≡ change_cause (state self.now.view) share.now.session change.now
            (change_status (asks (answers_of C.answers callbacks.now)) (state self.now.view).world share.now.session moment change.now) }
    {
        let end = end_of(&self.journal);
        self.store
            .cause(callbacks, end, share.session(), moment, change)
    }

    /// Answers a question, with the number of entries at which it was answered.
    pub fn read<C: Callback>(&self, callbacks: &Callbacks<C>, session: u8, query: &Query) -> Answer
        ensures at { result.at ≡ next_of self.now.view }
        ensures body { IsRead (asks (answers_of C.answers callbacks.now)) (state self.now.view) session query.now result.body }
    {
        let body = self.store.answer(callbacks, self.alloc, session, query);
        Answer {
            at: self.journal.len() as u64,
            body,
        }
    }

    /// Answers a QueryValue, with the value's data written over the front of a room.
    pub fn read_value<C: Callback>(
        &self,
        callbacks: &Callbacks<C>,
        session: u8,
        handle: u64,
        name: Bytes,
        room: &mut [u8],
    ) -> ValueTold
        ensures { IsValueRead (asks (answers_of C.answers callbacks.now)) (state self.now.view) session handle name result room.old room.new }
    {
        let query = Query::QueryValue {
            handle,
            name,
            room: asked_room(room),
        };
        self.store.answer_value(callbacks, session, &query, room)
    }

    /// Answers an EnumKey, with the subkey's name written over the front of a room.
    pub fn read_subkey<C: Callback>(
        &self,
        callbacks: &Callbacks<C>,
        session: u8,
        handle: u64,
        index: u32,
        room: &mut [u8],
    ) -> KeyTold
        ensures { IsKeyRead (asks (answers_of C.answers callbacks.now)) (state self.now.view) session handle index result room.old room.new }
    {
        let query = Query::EnumKey {
            handle,
            index,
            room: size_in_32_bits(room),
        };
        self.store.answer_subkey(callbacks, session, &query, room)
    }
}
