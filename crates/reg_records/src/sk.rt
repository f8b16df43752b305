//! Key securities.
//!
//! Suhanov, Windows registry file format specification, section "Key security".

ghost use Rattle.std.specs.Prelude.{◌≡◌, ◌+◌, length, MatchResult, IsSome};
ghost use Rattle.byteorder.specs.Endian.{little_bytes};
ghost use Rattle.reg_arena.specs.Arena.{heap_of};
ghost use Rattle.reg_records.specs.RecordCells.{held, HasRoom, WritesRecord, WritesPart, Rereads};
ghost use Rattle.reg_records.specs.KeySecurities.{FitSecurity, sk_of, sk_head, sk_bytes, security_at, IsPlainSecurity};

use crate::cells::{room_is_small, write_part, write_record};
use crate::{RecordFault, is_signed, word_at, word_bytes};
use reg_arena::Arena;

/// The length of a key security before its descriptor, in bytes.
const HEAD: usize = 20;

/// What a key security holds beside its descriptor.
#[derive(Clone, Copy, Debug, PartialEq, Eq)]
pub struct SecurityFields {
    /// The offset of the next key security.
    pub flink: u32,
    /// The offset of the previous key security.
    pub blink: u32,
    /// How many key nodes use the descriptor.
    pub count: u32,
}

/// A key security as it is read.
#[derive(Clone, Copy, Debug)]
pub struct SecurityRecord<'a> {
    /// Its fixed part.
    pub fields: SecurityFields,
    /// The bytes of its security descriptor.
    pub descriptor: &'a [u8],
}

/// Reads a key security from the start of what a cell holds. The reserved bytes are not looked at.
///
/// `Short` is for less than 20 bytes, `Signature` where they don't begin with `sk`, and `Length`
/// where the descriptor would pass the end.
#[tactic(auto, unfolding(crate::specs::KeySecurities::sk_of))]
pub fn read_sk(content: &[u8]) -> Result<SecurityRecord<'_>, RecordFault>
    ensures { MatchResult result
        (λ read. sk_of content.now ≡ Ok (record { fields = read.fields; descriptor = read.descriptor.now }))
        (λ fault. sk_of content.now ≡ Err fault) }
{
    if content.len() < HEAD {
        return Err(RecordFault::Short);
    }
    if !is_signed(content, b's', b'k') {
        return Err(RecordFault::Signature);
    }
    let size = word_at(content, 16) as usize;
    if content.len() < HEAD + size {
        return Err(RecordFault::Length);
    }
    Ok(SecurityRecord {
        fields: SecurityFields {
            flink: word_at(content, 4),
            blink: word_at(content, 8),
            count: word_at(content, 12),
        },
        descriptor: &content[HEAD..HEAD + size],
    })
}

/// The fixed part as it is written.
fn head(fields: &SecurityFields, size: u32) -> [u8; HEAD]
    ensures bytes { result ≡ sk_head fields.now size }
    ensures fits { FitSecurity fields.now }
{
    let [f0, f1, f2, f3] = word_bytes(fields.flink);
    let [b0, b1, b2, b3] = word_bytes(fields.blink);
    let [c0, c1, c2, c3] = word_bytes(fields.count);
    let [s0, s1, s2, s3] = word_bytes(size);
    [
        b's', b'k', 0, 0, f0, f1, f2, f3, b0, b1, b2, b3, c0, c1, c2, c3, s0, s1, s2, s3,
    ]
}

/// Writes a key security at the start of what a cell holds. What follows it there stays.
///
/// The reserved bytes are written as 0.
pub fn put_sk(arena: &mut Arena, cell: u32, fields: &SecurityFields, descriptor: &[u8])
    requires room { HasRoom (heap_of arena.old) cell (20 + length descriptor.now) }
    ensures written { WritesRecord arena.old arena.new cell (20 + length descriptor.now) (sk_bytes fields.now descriptor.now) }
    ensures reads { security_at (heap_of arena.new) cell ≡ Some (record { fields = fields.now; descriptor = descriptor.now }) }
    ensures plain { IsPlainSecurity (held (heap_of arena.new) cell) }
{
    room_is_small(arena);
    let head = head(fields, descriptor.len() as u32);
    write_record(arena, cell, &head, descriptor);
}

/// Writes how many key nodes use the descriptor of a key security.
pub fn set_security_count(arena: &mut Arena, cell: u32, count: u32)
    requires { IsSome (security_at (heap_of arena.old) cell) }
    ensures written { WritesPart arena.old arena.new cell 12 (little_bytes 4 count) }
    ensures reads { Rereads security_at arena.old arena.new cell (λ r. record r { fields = record r.fields { count = count } }) }
    ensures plain { IsPlainSecurity (held (heap_of arena.old) cell) → IsPlainSecurity (held (heap_of arena.new) cell) }
{
    write_part(arena, cell, 12, &word_bytes(count));
}

/// Writes the offset of the key security that comes after one in the ring.
pub fn set_flink(arena: &mut Arena, cell: u32, flink: u32)
    requires { IsSome (security_at (heap_of arena.old) cell) }
    ensures written { WritesPart arena.old arena.new cell 4 (little_bytes 4 flink) }
    ensures reads { Rereads security_at arena.old arena.new cell (λ r. record r { fields = record r.fields { flink = flink } }) }
    ensures plain { IsPlainSecurity (held (heap_of arena.old) cell) → IsPlainSecurity (held (heap_of arena.new) cell) }
{
    write_part(arena, cell, 4, &word_bytes(flink));
}

/// Writes the offset of the key security that comes before one in the ring.
pub fn set_blink(arena: &mut Arena, cell: u32, blink: u32)
    requires { IsSome (security_at (heap_of arena.old) cell) }
    ensures written { WritesPart arena.old arena.new cell 8 (little_bytes 4 blink) }
    ensures reads { Rereads security_at arena.old arena.new cell (λ r. record r { fields = record r.fields { blink = blink } }) }
    ensures plain { IsPlainSecurity (held (heap_of arena.old) cell) → IsPlainSecurity (held (heap_of arena.new) cell) }
{
    write_part(arena, cell, 8, &word_bytes(blink));
}
