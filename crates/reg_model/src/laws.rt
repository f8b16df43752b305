//! Laws of calls, journals and what these make of a tree. Each function is one law: it does nothing, and its contract says
//! what holds of the definitions in `specs/`.
ghost use Rattle.std.specs.Prelude.{◌≡◌, ◌≢◌, ◌<◌, ◌≤◌, ◌+◌, ℕ, ◌==◌, ◌&&◌, List, [], ◌∷◌, ◌++◌, length, map, count_by, All, IsSome, Some, None};
ghost use Rattle.std.specs.List.{AllByRecursion, filter_map};
ghost use Rattle.std.specs.List.Sorted.{IsStrictlyIncreasing};
ghost use Rattle.std.specs.FinMap.{get};
ghost use Rattle.reg_heap.specs.Paths.{Tree};
ghost use Rattle.reg_heap.specs.Edits.{folded_path};
ghost use Rattle.reg_heap.specs.Trees.{IsTree};
ghost use Rattle.reg_model.specs.Worlds.{after, look, opened, Handle, Deleted, StandsIn};
ghost use Rattle.reg_model.specs.declared.limits.TheConstants.{WATCHES_LIMIT};
ghost use Rattle.reg_model.specs.Causes.{State, Opening, rule_of, path_asked, change_cause, watches_of};
ghost use Rattle.reg_model.specs.Watches.{Watch, IsWatching, ending, few_ending, watch_of, reason, pending_past, notices};
ghost use Rattle.reg_model.specs.Calls.{entry_due, reply_given, state_after};
ghost use Rattle.reg_model.specs.Histories.{IsFit, IsLegal, replay, state_of, asked_by, mets, pending, fired};
ghost use Rattle.reg_model.specs.declared.call.Change.{Change};
ghost use Rattle.reg_model.specs.declared.call.Change.TheVariants.{Close};
ghost use Rattle.reg_model.specs.declared.notice.Notice.{Notice};
ghost use Rattle.reg_model.specs.declared.reply.Entry.{Entry};

/// The front of a legal journal is legal.
pub fn front_is_legal()
    ensures { (base : ℕ) → (origin : Tree) → (past more : List Entry) → IsLegal base origin (past ++ more) → IsLegal base origin past }
{}

/// The number of an entry of a legal journal is that of the first and its index.
pub fn numbers_go_on_from_the_base()
    ensures { (base : ℕ) → (origin : Tree) → (past : List Entry) → (e : Entry) → (more : List Entry) → IsLegal base origin (past ++ e ∷ more) → e.number ≡ base + length past }
{}

/// Each entry of a legal journal was accepted where the entries before it left the hive, and has the reply due there.
pub fn each_entry_fits()
    ensures { (base : ℕ) → (origin : Tree) → (past : List Entry) → (e : Entry) → (more : List Entry) → IsLegal base origin (past ++ e ∷ more) → IsFit base origin past e }
{}

/// A legal journal grows by an entry that fits, and stays legal.
pub fn legal_journal_grows()
    ensures { (base : ℕ) → (origin : Tree) → (past : List Entry) → (e : Entry) → IsLegal base origin past → IsFit base origin past e → IsLegal base origin (past ++ e ∷ []) }
{}

/// The replay of one entry more is one step more.
pub fn replay_goes_on()
    ensures { (origin : Tree) → (past : List Entry) → (e : Entry) → replay origin (past ++ e ∷ []) ≡ after (replay origin past) e }
{}

/// No refusal has the status 0, which is an acceptance's.
pub fn no_refusal_is_zero()
    ensures { (s : State) → (session : ℕ) → (change : Change) → (c : ℕ) → change_cause s session change c ≢ Some 0 }
{}

/// A change that is told another status than 0 changes nothing.
pub fn refusal_changes_nothing()
    ensures { (s : State) → (session moment : ℕ) → (change : Change) → (c : ℕ) → (reply_given s session change c).status ≢ 0 →
        state_after s session moment change c ≡ s }
{}

/// A change that is told status 0 becomes one entry, which fits.
pub fn acceptance_is_an_entry()
    ensures entry { (base : ℕ) → (origin : Tree) → (past : List Entry) → (session moment : ℕ) → (change : Change) → (c : ℕ) →
        (reply_given (state_of base origin past) session change c).status ≡ 0 →
        IsFit base origin past (entry_due (state_of base origin past) session moment change) }
    ensures after { (base : ℕ) → (origin : Tree) → (past : List Entry) → (session moment : ℕ) → (change : Change) → (c : ℕ) →
        (reply_given (state_of base origin past) session change c).status ≡ 0 →
        state_after (state_of base origin past) session moment change c ≡ state_of base origin
        (past ++ entry_due (state_of base origin past) session moment change ∷ []) }
{}

/// A handle's number is that of an entry, and no two handles have one number: they rise.
pub fn handle_numbers_rise()
    ensures below { (base : ℕ) → (origin : Tree) → (journal : List Entry) → IsLegal base origin journal →
        All (λ (h : Handle). h.number < base + length journal) (replay origin journal).handles }
    ensures rise { (base : ℕ) → (origin : Tree) → (journal : List Entry) → IsLegal base origin journal →
        IsStrictlyIncreasing (map (λ (h : Handle). h.number) (replay origin journal).handles) }
{}

/// An entry that opens a handle tells its own number as the handle's, by which its session then finds a handle to the key at
/// the end of the path, with the mask that it asked for.
pub fn handle_has_its_entrys_number()
    ensures told { (base : ℕ) → (origin : Tree) → (past : List Entry) → (e : Entry) → (opening : Opening) → IsFit base origin past e →
        (rule_of e.change).opens ≡ Some opening → e.reply.handle ≡ Some e.number }
    ensures found { (base : ℕ) → (origin : Tree) → (past : List Entry) → (e : Entry) → (opening : Opening) → IsLegal base origin past →
        IsFit base origin past e → (rule_of e.change).opens ≡ Some opening →
        look e.session e.number (replay origin (past ++ e ∷ [])).handles ≡
        Some (opened e (path_asked (replay origin past) e.session (rule_of e.change).of ++ folded_path opening.path) opening.mask) }
{}

/// A session's handle stays until that session closes it: with its mask, and, where its key was deleted, leading nowhere. Once
/// it is closed, its number finds nothing again.
pub fn handle_stays_until_it_is_closed()
    ensures stays { (base : ℕ) → (origin : Tree) → (past more : List Entry) → (session number : ℕ) → (h : Handle) → IsLegal base origin (past ++ more) →
        look session number (replay origin past).handles ≡ Some h →
        AllByRecursion (λ (e : Entry). e.session ≡ session → e.change ≡ Close number → ⊥) more →
        (now : Handle) × (look session number (replay origin (past ++ more)).handles ≡ Some now) × (now.mask ≡ h.mask)
        × (h.destination ≡ Deleted → now ≡ h) }
    ensures closed { (base : ℕ) → (origin : Tree) → (past : List Entry) → (e : Entry) → (more : List Entry) → (session number : ℕ) →
        IsLegal base origin (past ++ e ∷ more) → e.change ≡ Close number →
        look session number (replay origin (past ++ e ∷ more)).handles ≡ None }
{}

/// A tree stays a tree after every legal journal: it holds its root and each key's parent, the last name of a path is its key's
/// name, folded, and the names of a key's values differ after folding.
pub fn tree_stays_a_tree()
    ensures { (base : ℕ) → (origin : Tree) → (journal : List Entry) → IsLegal base origin journal → IsTree origin → IsTree (replay origin journal).tree }
{}

/// A tree that holds its root holds it after every legal journal.
pub fn root_stays()
    ensures { (base : ℕ) → (origin : Tree) → (journal : List Entry) → IsLegal base origin journal → IsSome (get origin []) → IsSome (get (replay origin journal).tree []) }
{}

/// Every handle that leads to a key leads to one that is in the tree, after every legal journal of a tree that holds its root.
pub fn handles_lead_to_keys()
    ensures { (base : ℕ) → (origin : Tree) → (journal : List Entry) → IsLegal base origin journal → IsSome (get origin []) →
        All (λ (h : Handle). StandsIn (replay origin journal).tree h.destination) (replay origin journal).handles }
{}

/// One more entry ends some of the pending watches, and adds the one that it asks for.
pub fn pending_goes_on()
    ensures { (origin : Tree) → (past : List Entry) → (e : Entry) → pending origin (past ++ e ∷ []) ≡
        pending_past (ending (replay origin past) e) (watch_of (replay origin past) e) (pending origin past) }
{}

/// What one more entry tells a session is appended to what it was told: a notice for each of its watches that the entry ends, in
/// the order in which they were asked for, with the entry's number and the reason.
pub fn fired_goes_on()
    ensures { (origin : Tree) → (past : List Entry) → (e : Entry) → (session : ℕ) → fired origin (past ++ e ∷ []) session ≡
        fired origin past session ++ notices session (ending (replay origin past) e) (pending origin past) }
{}

/// Of each number a session has as many pending watches and notices together as it asked for watches of that number. So after a legal
/// journal, which numbers no two alike, each watch is pending, or its session was told of it once. This counts alone: by which entry
/// and why it was told is what `fired_goes_on` says.
pub fn each_watch_is_pending_or_told_once()
    ensures { (origin : Tree) → (journal : List Entry) → (session number : ℕ) →
        count_by (λ (v : Watch). v.session == session && v.number == number) (pending origin journal)
        + count_by (λ (x : Notice). x.watch == number) (fired origin journal session) ≡
        count_by (λ (v : Watch). v.session == session && v.number == number) (filter_map asked_by (mets origin journal)) }
{}

/// After every legal journal the handle of a pending watch is open, its session's, and leads to the watch's key, which is in the tree
/// where the journal began with one that holds its root.
pub fn watches_stand()
    ensures handles { (base : ℕ) → (origin : Tree) → (journal : List Entry) → IsLegal base origin journal →
        All (IsWatching (replay origin journal).handles) (pending origin journal) }
    ensures keys { (base : ℕ) → (origin : Tree) → (journal : List Entry) → IsLegal base origin journal → IsSome (get origin []) →
        All (λ (v : Watch). IsSome (get (replay origin journal).tree v.path)) (pending origin journal) }
{}

/// After every legal journal a pending watch's number is below that of the next entry, and no two have one number: they rise.
pub fn watch_numbers_rise()
    ensures below { (base : ℕ) → (origin : Tree) → (journal : List Entry) → IsLegal base origin journal →
        All (λ (v : Watch). v.number < base + length journal) (pending origin journal) }
    ensures rise { (base : ℕ) → (origin : Tree) → (journal : List Entry) → IsLegal base origin journal →
        IsStrictlyIncreasing (map (λ (v : Watch). v.number) (pending origin journal)) }
{}

/// After every legal journal a session has at most 4,096 pending watches.
pub fn watches_are_few()
    ensures { (base : ℕ) → (origin : Tree) → (journal : List Entry) → (session : ℕ) → IsLegal base origin journal →
        watches_of session (pending origin journal) ≤ WATCHES_LIMIT }
{}

/// Where an entry is legal after a legal journal of a tree, one event at the highest key above those that it makes or removes, in place
/// of one for each of them, ends the pending watches as all of its events do, and for the same reasons.
pub fn few_events_suffice()
    ensures { (base : ℕ) → (origin : Tree) → (past : List Entry) → (e : Entry) → IsTree origin → IsLegal base origin past → IsFit base origin past e →
        All (λ (v : Watch). reason (few_ending (replay origin past) e) v ≡ reason (ending (replay origin past) e) v) (pending origin past) }
{}

/// So what is pending and what is told after one more entry is what these few events make of it.
pub fn few_events_go_on()
    ensures pending { (base : ℕ) → (origin : Tree) → (past : List Entry) → (e : Entry) → IsTree origin → IsLegal base origin past → IsFit base origin past e →
        pending origin (past ++ e ∷ []) ≡
        pending_past (few_ending (replay origin past) e) (watch_of (replay origin past) e) (pending origin past) }
    ensures fired { (base : ℕ) → (origin : Tree) → (past : List Entry) → (e : Entry) → (session : ℕ) → IsTree origin → IsLegal base origin past →
        IsFit base origin past e → fired origin (past ++ e ∷ []) session ≡
        fired origin past session ++ notices session (few_ending (replay origin past) e) (pending origin past) }
{}
