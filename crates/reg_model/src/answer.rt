ghost use Rattle.std.specs.Prelude.{◌≡◌, IfOk};

use crate::Bytes;
use crate::bytes::clone_option;
use std::alloc::{AllocError, Global};

/// The answer to a question.
#[derive(Debug, Drop)]
pub struct Answer {
    /// How many entries the hive has had when the question was answered.
    pub at: u64,
    pub body: AnswerBody,
}

/// What a question is answered.
#[derive(Debug, Drop)]
pub enum AnswerBody {
    /// The refusal's number: 2, 5, 6, 8, 87, 259, 1009 or 1018.
    Refused {
        status: u32,
    },
    /// A room is too small: 234, with the value's type and how many bytes its data has; of a subkey 0 and how many bytes its
    /// name has. For a descriptor 122, 0 and its size.
    Short {
        status: u32,
        kind: u32,
        size: u32,
    },
    /// The value's type, how many bytes it has, and the bytes if a room was given.
    Value {
        kind: u32,
        size: u32,
        bytes: Option<Bytes>,
    },
    /// A subkey's name as given, and its last write time in units of 100 ns since 1601.
    Key {
        name: Bytes,
        time: u64,
    },
    /// A value's name as given, its type, how many bytes its data has, and the data if a room was given.
    Member {
        name: Bytes,
        kind: u32,
        size: u32,
        bytes: Option<Bytes>,
    },
    /// A key as it stands. Lengths and sizes are bytes; the time is in units of 100 ns since 1601.
    Info {
        subkeys: u32,
        longest_key: u32,
        values: u32,
        longest_value: u32,
        largest: u32,
        security: u32,
        time: u64,
    },
    /// A key's security descriptor.
    Security {
        bytes: Bytes,
    },
}

impl AnswerBody {
    /// A copy, which equals its source. Its one fault is that memory was refused.
    pub fn try_clone(&self, alloc: Global) -> Result<AnswerBody, AllocError>
        ensures { IfOk result (λ copy. copy ≡ self.now) }
    {
        match self {
            AnswerBody::Refused { status } => Ok(AnswerBody::Refused { status: *status }),
            AnswerBody::Short { status, kind, size } => Ok(AnswerBody::Short {
                status: *status,
                kind: *kind,
                size: *size,
            }),
            AnswerBody::Value { kind, size, bytes } => Ok(AnswerBody::Value {
                kind: *kind,
                size: *size,
                bytes: clone_option(alloc, bytes)?,
            }),
            AnswerBody::Key { name, time } => Ok(AnswerBody::Key {
                name: name.try_clone(alloc)?,
                time: *time,
            }),
            AnswerBody::Member {
                name,
                kind,
                size,
                bytes,
            } => Ok(AnswerBody::Member {
                name: name.try_clone(alloc)?,
                kind: *kind,
                size: *size,
                bytes: clone_option(alloc, bytes)?,
            }),
            AnswerBody::Info {
                subkeys,
                longest_key,
                values,
                longest_value,
                largest,
                security,
                time,
            } => Ok(AnswerBody::Info {
                subkeys: *subkeys,
                longest_key: *longest_key,
                values: *values,
                longest_value: *longest_value,
                largest: *largest,
                security: *security,
                time: *time,
            }),
            AnswerBody::Security { bytes } => Ok(AnswerBody::Security {
                bytes: bytes.try_clone(alloc)?,
            }),
        }
    }
}

impl Answer {
    /// A copy, which equals its source. Its one fault is that memory was refused.
    pub fn try_clone(&self, alloc: Global) -> Result<Answer, AllocError>
        ensures { IfOk result (λ copy. copy ≡ self.now) }
    {
        Ok(Answer {
            at: self.at,
            body: self.body.try_clone(alloc)?,
        })
    }
}
