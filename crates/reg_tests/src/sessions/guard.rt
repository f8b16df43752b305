//! A callback that refuses the calls of one kind.
ghost use Rattle.std.specs.Prelude.{◌≡◌, ◌==◌, if◌then◌else◌, length};
ghost use Rattle.reg_tests.specs.Kinds.{kind_of, kind_of_change, kind_of_query};

use reg_callbacks::Callback;
use reg_model::{Change, Query};
use std::alloc::{AllocError, Global};

/// The place of a change's kind among all kinds.
fn kind_of_change(change: &Change) -> u32
    ensures { result ≡ kind_of_change change.now }
{
    match change {
        Change::OpenRoot { .. } => 0,
        Change::OpenKey { .. } => 1,
        Change::CreateKey { .. } => 2,
        Change::SetValue { .. } => 3,
        Change::DeleteValue { .. } => 4,
        Change::DeleteKey { .. } => 5,
        Change::DeleteTree { .. } => 6,
        Change::SetSecurity { .. } => 7,
        Change::Notify { .. } => 8,
        Change::Close { .. } => 9,
    }
}

/// The place of a question's kind among all kinds.
fn kind_of_query(query: &Query) -> u32
    ensures { result ≡ kind_of_query query.now }
{
    match query {
        Query::QueryValue { .. } => 10,
        Query::EnumKey { .. } => 11,
        Query::EnumValue { .. } => 12,
        Query::QueryInfo { .. } => 13,
        Query::GetSecurity { .. } => 14,
    }
}

/// Answers a status to the calls of one kind, or, of the kind 15, to all by a handle of a key below the root; and 0 to the others.
#[derive(Drop)]
struct Guard {
    status: u32,
    kind: u32,
}

impl Guard {
    /// What it answers to a call of a kind, where the path of the handle's key has so many bytes.
    fn answer(&self, len: usize, kind: u32) -> u32
        ensures { result ≡ (if self.now.kind == 15 then (if len == 0 then 0 else self.now.status)
            else (if kind == self.now.kind then self.now.status else 0)) }
    {
        if self.kind == 15 {
            if len == 0 { 0 } else { self.status }
        } else if kind == self.kind {
            self.status
        } else {
            0
        }
    }
}

impl Callback for Guard {
    ghost answers = { λ callback session moment path seen. if callback.kind == 15 then (if length path == 0 then 0 else callback.status)
        else (if kind_of seen == callback.kind then callback.status else 0) };

    fn pre_change(&self, _: u8, _: u64, path: &[u8], change: &Change) -> u32 {
        self.answer(path.len(), kind_of_change(change))
    }

    fn pre_query(&self, _: u8, path: &[u8], query: &Query) -> u32 {
        self.answer(path.len(), kind_of_query(query))
    }
}

/// A callback that answers a status to the calls of one kind, by its place in the rules' tables: changes from 0 on, questions from 10 on;
/// or, of the kind 15, to all by a handle of a key below the root.
pub fn boxed(
    alloc: Global,
    status: u32,
    kind: u32,
) -> Result<Box<dyn Callback + Send>, AllocError> {
    Ok(Box::new(alloc, Guard { status, kind })?)
}
