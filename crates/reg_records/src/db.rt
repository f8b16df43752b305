//! Big data records.
//!
//! Suhanov, Windows registry file format specification, section "Big data".

ghost use Rattle.std.specs.Prelude.{◌≡◌, ◌^◌, ◌<◌, Some, MatchResult};
ghost use Rattle.reg_arena.specs.Arena.{heap_of};
ghost use Rattle.reg_records.specs.RecordCells.{held, HasRoom, WritesRecord};
ghost use Rattle.reg_records.specs.BigData.{db_in, db_of, db_bytes};

use crate::cells::write_record;
use crate::{RecordFault, half_at, half_bytes, is_signed, word_at, word_bytes};
use reg_arena::Arena;

/// The most bytes of data that one cell holds, and the size of each segment but the last (section "Big data").
pub const SEGMENT_SIZE: usize = 16_344;

/// The length of a big data record, in bytes.
const HEAD: usize = 8;

/// What a big data record holds.
#[derive(Clone, Copy, Debug, PartialEq, Eq)]
pub struct BigFields {
    /// How many segments the data has.
    pub count: u16,
    /// The offset of the list of segments.
    pub list: u32,
}

/// Reads a big data record from the start of what a cell holds.
///
/// `Short` is for less than 8 bytes, and `Signature` where they don't begin with `db`.
#[tactic(auto, unfolding(crate::specs::BigData::db_in))]
pub fn read_db(content: &[u8]) -> Result<BigFields, RecordFault>
    ensures { MatchResult result (λ read. db_in content.now ≡ Ok (record { count = read.count; list = read.list })) (λ fault. db_in content.now ≡ Err fault) }
{
    if content.len() < HEAD {
        return Err(RecordFault::Short);
    }
    if !is_signed(content, b'd', b'b') {
        return Err(RecordFault::Signature);
    }
    Ok(BigFields {
        count: half_at(content, 2),
        list: word_at(content, 4),
    })
}

/// The record as it is written.
#[tactic(auto, unfolding(crate::specs::BigData::db_bytes))]
fn head(fields: &BigFields) -> [u8; HEAD]
    ensures bytes { result ≡ db_bytes fields.now.count fields.now.list }
    ensures count { fields.now.count < 2 ^ 16 }
    ensures list { fields.now.list < 2 ^ 32 }
{
    let [c0, c1] = half_bytes(fields.count);
    let [l0, l1, l2, l3] = word_bytes(fields.list);
    [b'd', b'b', c0, c1, l0, l1, l2, l3]
}

/// Writes a big data record at the start of what a cell holds. What follows it there stays.
pub fn put_db(arena: &mut Arena, cell: u32, fields: &BigFields)
    requires { HasRoom (heap_of arena.old) cell 8 }
    ensures written { WritesRecord arena.old arena.new cell 8 (db_bytes fields.now.count fields.now.list) }
    ensures reads { db_of (held (heap_of arena.new) cell) ≡ Some (record { count = fields.now.count; list = fields.now.list }) }
{
    let head = head(fields);
    write_record(arena, cell, &head, &[]);
}
