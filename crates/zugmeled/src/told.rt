//! Answers, written to the caller's variables and rooms.
ghost use Rattle.std.specs.Prelude.{◌≡◌};
ghost use Rattle.zugmeled.specs.Told.{filled_if, TellsMember, TellsInfo, TellsSecurity, reason_number};
ghost use Rattle.reg_model.specs.declared.answer.AnswerBody.TheVariants.{Refused};

use reg_calls::size_in_32_bits;
use reg_model::statuses::INVALID_PARAMETER;
use reg_model::{AnswerBody, Bytes, Reason};
use reg_tree_image::fill;

/// A key's numbers: how many subkeys, the longest of their names in bytes, how many values, the longest of their names and the largest of
/// their data in bytes, the size of the descriptor in bytes, and the last write time in units of 100 ns since 1601.
#[repr(C)]
#[derive(Clone, Copy)]
pub struct ZugInfo {
    pub subkeys: u32,
    pub longest_key: u32,
    pub values: u32,
    pub longest_value: u32,
    pub largest: u32,
    pub security: u32,
    pub time: u64,
}

fn fill_if(room: &mut [u8], bytes: Option<Bytes>)
    ensures { room.new ≡ filled_if bytes room.old }
{
    if let Some(bytes) = bytes {
        fill(room, bytes.as_slice());
    }
}

/// A status, with a size and a time.
#[derive(Clone, Copy)]
pub(crate) struct Timed {
    pub(crate) status: u32,
    pub(crate) size: u32,
    pub(crate) time: u64,
}

/// A status, with a name's size, a type and a size.
#[derive(Clone, Copy)]
pub(crate) struct Listed {
    pub(crate) status: u32,
    pub(crate) name_size: u32,
    pub(crate) kind: u32,
    pub(crate) size: u32,
}

/// Writes a value's name to one room, and its bytes to another.
pub(crate) fn tell_member(body: AnswerBody, name_room: &mut [u8], room: &mut [u8]) -> Listed
    ensures { TellsMember body result.status result.name_size result.kind result.size name_room.old name_room.new room.old room.new }
{
    match body {
        AnswerBody::Member {
            name,
            kind,
            size: long,
            bytes,
        } => {
            fill(name_room, name.as_slice());
            fill_if(room, bytes);
            Listed {
                status: 0,
                name_size: size_in_32_bits(name.as_slice()),
                kind,
                size: long,
            }
        }
        AnswerBody::Short { status, kind, size } => Listed {
            status,
            name_size: 0,
            kind,
            size,
        },
        AnswerBody::Refused { status } => Listed {
            status,
            name_size: 0,
            kind: 0,
            size: 0,
        },
        _ => Listed {
            status: INVALID_PARAMETER,
            name_size: 0,
            kind: 0,
            size: 0,
        },
    }
}

/// A status, with a key's numbers.
#[derive(Clone, Copy)]
pub(crate) struct Informed {
    pub(crate) status: u32,
    pub(crate) info: ZugInfo,
}

/// No numbers of a key, with a status.
fn uninformed(status: u32) -> Informed
    ensures { TellsInfo (Refused status) result.status result.info }
{
    Informed {
        status,
        info: ZugInfo {
            subkeys: 0,
            longest_key: 0,
            values: 0,
            longest_value: 0,
            largest: 0,
            security: 0,
            time: 0,
        },
    }
}

/// A key's numbers.
pub(crate) fn tell_info(body: AnswerBody) -> Informed
    ensures { TellsInfo body result.status result.info }
{
    match body {
        AnswerBody::Info {
            subkeys,
            longest_key,
            values,
            longest_value,
            largest,
            security,
            time,
        } => Informed {
            status: 0,
            info: ZugInfo {
                subkeys,
                longest_key,
                values,
                longest_value,
                largest,
                security,
                time,
            },
        },
        AnswerBody::Refused { status } => uninformed(status),
        _ => uninformed(INVALID_PARAMETER),
    }
}

/// Writes a descriptor to a room.
pub(crate) fn tell_security(body: AnswerBody, room: &mut [u8]) -> Timed
    ensures { TellsSecurity body result.status result.size room.old room.new }
{
    match body {
        AnswerBody::Security { bytes } => {
            fill(room, bytes.as_slice());
            Timed {
                status: 0,
                size: size_in_32_bits(bytes.as_slice()),
                time: 0,
            }
        }
        AnswerBody::Short {
            status,
            kind: _,
            size,
        } => Timed {
            status,
            size,
            time: 0,
        },
        AnswerBody::Refused { status } => Timed {
            status,
            size: 0,
            time: 0,
        },
        _ => Timed {
            status: INVALID_PARAMETER,
            size: 0,
            time: 0,
        },
    }
}

/// The number of a notice's reason.
pub(crate) fn reason_told(reason: Reason) -> u32
    ensures { result ≡ reason_number reason }
{
    match reason {
        Reason::Matched => 1,
        Reason::Gone => 2,
        Reason::Closed => 3,
    }
}
