//! What is left of a list of subkeys, entry by entry.

ghost use Rattle.std.specs.Prelude.{◌≡◌, ◌+◌, ◌*◌, ◌≤◌, ℕ, List, [], ◌∷◌, length, drop, IfNone, MatchOption};
ghost use Rattle.reg_records.specs.SubkeyLists.{entry_size, entries_as};

use reg_records::{ListForm, entry_at};

/// What is left of a list of subkeys.
#[derive(Clone, Copy)]
pub struct ListPart<'a> {
    /// The list's record.
    pub content: &'a [u8],
    /// Its form.
    pub form: ListForm,
    /// How many entries it has.
    pub count: u16,
    /// How many of them were taken.
    pub taken: u16,
    ghost fits: { (4 + entry_size form * count ≤ length content.now) × (taken ≤ count) },
}

impl<'a> ListPart<'a> {
    /// How many entries are left.
    pub fn left(&self) -> u16
        ensures { result ≤ self.now.count }
    {
        self.count - self.taken
    }

    /// The offset in the next entry, which is taken then. `None`, which changes nothing, where no entry is left.
    pub fn take(&mut self) -> Option<u32>
        ensures next { MatchOption result (drop self.old.taken (entries_as self.old.form self.old.count 4 self.old.content.now) ≡ [])
            (λ offset. (hint : ℕ) × (drop self.old.taken (entries_as self.old.form self.old.count 4 self.old.content.now) ≡
            record { offset = offset; hint = hint } ∷ drop self.new.taken (entries_as self.new.form self.new.count 4 self.new.content.now))) }
        ensures kept { (self.new.form ≡ self.old.form) × (self.new.count ≡ self.old.count) × (self.new.content ≡ self.old.content) }
        ensures none { IfNone result (self.new ≡ self.old) }
    {
        if self.taken >= self.count {
            return None;
        }
        let entry = entry_at(self.content, self.form, self.taken);
        self.taken += 1;
        Some(entry.offset)
    }
}
