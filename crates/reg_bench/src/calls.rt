//! What is measured: calls that are made over and over on one value of a key, and how long they take.

use anyhow::Result;
use reg_model::{AnswerBody, Bytes, Call, Change, Query};
use std::alloc::Global;
use std::fmt;
use std::time::Duration;

/// Every right.
pub const ALL_RIGHTS: u32 = 0xF_003F;

/// How many calls are made on one side before the other side's turn.
pub const BATCH: u32 = 100;

/// By what is measured, and whether there are to be few keys and calls.
#[derive_where(Clone, Copy)]
pub struct Bench<'a, Rt> {
    pub rt: &'a Rt,
    pub alloc: Global,
    pub is_small: bool,
}

/// What is done to the value, which is there: it is asked for, or set to as many bytes as it has.
#[derive(Clone, Copy)]
pub enum Act {
    Ask,
    Set,
}

/// How many calls were accepted, and how long all took, which is told where there are many.
#[derive(Clone, Copy)]
pub struct Took {
    pub calls: u64,
    time: Duration,
    is_small: bool,
}

impl<Rt> Bench<'_, Rt> {
    /// No call yet.
    pub fn took(self) -> Took {
        Took {
            calls: 0,
            time: Duration::ZERO,
            is_small: self.is_small,
        }
    }

    /// So many calls, by a handle of the key.
    pub fn calls(self, act: Act, handle: u64, count: u32) -> Result<Vec<Call>> {
        let mut calls = Vec::new(self.alloc);
        for _call in 0..count {
            calls.push(match act {
                Act::Ask => Call::Query(Query::QueryValue {
                    handle,
                    name: Bytes::from_slice(self.alloc, b"Value0")?,
                    room: Some(u32::MAX),
                }),
                Act::Set => Call::Change(set_value(self.alloc, handle)?),
            })?;
        }
        Ok(calls)
    }
}

impl Took {
    /// Adds more calls.
    pub fn add(&mut self, calls: u64, time: Duration) {
        self.calls = self.calls.saturating_add(calls);
        self.time = self.time.saturating_add(time);
    }
}

impl fmt::Display for Took {
    fn fmt<W: fmt::Write>(&self, f: &mut fmt::Formatter<W>) -> fmt::Result {
        write!(f, "{} calls", self.calls)?;
        if self.is_small {
            return Ok(());
        }
        write!(f, " in {} ns", self.time.as_nanos())
    }
}

/// Sets the value to four bytes.
pub fn set_value(alloc: Global, handle: u64) -> Result<Change> {
    Ok(Change::SetValue {
        handle,
        name: Bytes::from_slice(alloc, b"Value0")?,
        kind: 3,
        bytes: Bytes::from_slice(alloc, &[7; 4])?,
    })
}

/// Whether a question was answered.
pub fn is_answered(body: &AnswerBody) -> bool {
    !matches!(body, AnswerBody::Refused { .. } | AnswerBody::Short { .. })
}
