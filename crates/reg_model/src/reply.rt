ghost use Rattle.std.specs.Prelude.{◌≡◌, ◌↔◌, IfOk, IsTrue};
ghost use Rattle.reg_model.specs.Histories.{receipt_of};
ghost use Rattle.reg_model.specs.Calls.{changes_keys, was_there as was_there_of};

use crate::Change;
use crate::dispositions::THERE;
use std::alloc::{AllocError, Global};

/// The reply to a change. A refused one has no number, no handle and no disposition.
#[derive(Clone, Copy, Debug, PartialEq, Eq)]
pub struct ChangeReply {
    /// 0, or the number of the refusal: 2, 5, 6, 8, 87, 1009, 1018 or 1450.
    pub status: u32,
    /// The number of the change's entry.
    pub number: Option<u64>,
    /// The handle that the change opened.
    pub handle: Option<u64>,
    /// 1 where a key was made, 2 where it was there already.
    pub disposition: Option<u32>,
}

impl ChangeReply {
    /// Whether this is the same reply.
    pub fn is_same(&self, other: &ChangeReply) -> bool
        ensures { IsTrue result ↔ (self.now ≡ other.now) }
    {
        self == other
    }
}

/// An accepted change, as the journal holds it.
#[derive(Debug, Drop)]
pub struct Entry {
    /// How many entries the hive had before it.
    pub number: u64,
    /// The session that made the change, below 64.
    pub session: u8,
    /// When it was made, in units of 100 ns since 1601.
    pub moment: u64,
    pub change: Change,
    pub reply: ChangeReply,
}

impl Entry {
    /// A copy, which equals its source. Its one fault is that memory was refused.
    pub fn try_clone(&self, alloc: Global) -> Result<Entry, AllocError>
        ensures { IfOk result (λ copy. copy ≡ self.now) }
    {
        Ok(Entry {
            number: self.number,
            session: self.session,
            moment: self.moment,
            change: self.change.try_clone(alloc)?,
            reply: self.reply,
        })
    }

    /// Whether this is the same entry.
    pub fn is_same(&self, other: &Entry) -> bool
        ensures { IsTrue result ↔ (self.now ≡ other.now) }
    {
        self.number == other.number
            && self.session == other.session
            && self.moment == other.moment
            && self.reply.is_same(&other.reply)
            && self.change.is_same(&other.change)
    }

    /// Whether the change may have changed keys. One that opens, watches or closes hasn't, nor has a CreateKey that made no key: the
    /// hive's bins are as they were before it.
    #[tactic(auto, unfolding(crate::specs::Calls::changes_keys))]
    pub fn changes_keys(&self) -> bool
        ensures { result ≡ changes_keys self.now.change self.now.reply }
    {
        match &self.change {
            Change::OpenRoot { .. }
            | Change::OpenKey { .. }
            | Change::Notify { .. }
            | Change::Close { .. } => false,
            Change::CreateKey { .. } => !was_there(self.reply.disposition),
            Change::SetValue { .. }
            | Change::DeleteValue { .. }
            | Change::DeleteKey { .. }
            | Change::DeleteTree { .. }
            | Change::SetSecurity { .. } => true,
        }
    }
}

/// What a session keeps of one of its accepted changes: the entry without the session.
#[derive(Debug, Drop)]
pub struct Receipt {
    /// The number of the change's entry.
    pub number: u64,
    /// When the change was made, in units of 100 ns since 1601.
    pub moment: u64,
    pub change: Change,
    pub reply: ChangeReply,
}

impl Receipt {
    /// Whether it is the receipt of an entry.
    pub fn is_of(&self, entry: &Entry) -> bool
        ensures { IsTrue result ↔ (self.now ≡ receipt_of entry.now) }
    {
        self.number == entry.number
            && self.moment == entry.moment
            && self.reply.is_same(&entry.reply)
            && self.change.is_same(&entry.change)
    }
}

/// Whether a CreateKey told that its key was there already.
fn was_there(disposition: Option<u32>) -> bool
    ensures { result ≡ was_there_of disposition }
{
    match disposition {
        Some(disposition) => disposition == THERE,
        None => false,
    }
}
