//! What the securities of foreign bins say.

ghost use Rattle.std.specs.Prelude.{◌≡◌, ◌↔◌, Some, IsSome, IsTrue};
ghost use Rattle.reg_arena.specs.Cells.{cell_at};
ghost use Rattle.reg_records.specs.KeySecurities.{security_at, IsPlainSecurity};
ghost use Rattle.reg_records.specs.RecordCells.{held};
ghost use Rattle.reg_shape.specs.Written.{IsWrittenSecurity};
ghost use Rattle.reg_written.specs.Internal.RingWalks.{IsStanding};

use crate::content::{content, half_at};
use reg_heap::limits::DESCRIPTOR_LIMIT;
use reg_records::{SecurityRecord, read_sk};

/// A key security as it stands in its cell.
pub fn read(bins: &[u8], offset: u32) -> SecurityRecord<'_>
    requires { IsSome (security_at (cell_at bins.now) offset) }
    ensures { security_at (cell_at bins.now) offset ≡ Some (record { fields = result.fields; descriptor = result.descriptor.now }) }
{
    match read_sk(content(bins, offset)) {
        Ok(read) => read,
        Err(_) => unreachable!(),
    }
}

/// Whether the reserved bytes of a key security are 0.
fn is_plain(bins: &[u8], offset: u32) -> bool
    requires { IsSome (security_at (cell_at bins.now) offset) }
    ensures { IsTrue result ↔ IsPlainSecurity (held (cell_at bins.now) offset) }
{
    half_at(content(bins, offset), 2) == 0
}

/// Whether a key security is as this project writes it.
pub fn is_written(bins: &[u8], offset: u32) -> bool
    requires { IsSome (security_at (cell_at bins.now) offset) }
    ensures { IsTrue result ↔ IsWrittenSecurity (cell_at bins.now) offset }
{
    let size = read(bins, offset).descriptor.len();
    if size == 0 || size > DESCRIPTOR_LIMIT {
        return false;
    }
    is_plain(bins, offset)
}

/// Whether a key security is as this project writes it, names that one as the one before it, and counts so many keys.
pub fn is_standing(bins: &[u8], offset: u32, before: u32, count: u64) -> bool
    requires { IsSome (security_at (cell_at bins.now) offset) }
    ensures { IsTrue result ↔ IsStanding (cell_at bins.now) offset before count }
{
    let fields = read(bins, offset).fields;
    if fields.blink != before || u64::from(fields.count) != count {
        return false;
    }
    is_written(bins, offset)
}
