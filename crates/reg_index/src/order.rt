//! The order of two names, as each step of a search asks for it.

ghost use Rattle.std.specs.Prelude.{◌≡◌};
ghost use Rattle.std.specs.Int.{w64, to_le_bytes};
ghost use Rattle.reg_names.specs.Names.{name_cmp};

use reg_names::fold;
use std::cmp::Ordering;

/// Eight bytes as one number, the lowest first.
fn word_of(bytes: [u8; 8]) -> u64
    ensures { to_le_bytes w64 result ≡ bytes }
{
    u64::from_le_bytes(bytes)
}

/// The order of two names, byte by byte. Bytes that are the same are passed without being folded.
fn order_by_bytes(a: &[u8], b: &[u8]) -> Ordering
    ensures { result ≡ name_cmp a.now b.now }
{
    for index in 0..a.len().min(b.len()) {
        let (one, other) = (a[index], b[index]);
        if one != other {
            let order = fold(one).cmp(&fold(other));
            if order != Ordering::Equal {
                return order;
            }
        }
    }
    a.len().cmp(&b.len())
}

/// The order of two names by their folded bytes; a prefix comes first. Eight bytes that are the same are passed at once: the names that
/// a search compares have long fronts alike, in its last steps.
pub(crate) fn order(a: &[u8], b: &[u8]) -> Ordering
    ensures { result ≡ name_cmp a.now b.now }
{
    let mut one = a;
    let mut other = b;
    while let Some((first, rest)) = one.split_first_chunk::<8>() {
        let Some((second, behind)) = other.split_first_chunk::<8>() else {
            return order_by_bytes(one, other);
        };
        if word_of(*first) != word_of(*second) {
            return order_by_bytes(one, other);
        }
        one = rest;
        other = behind;
    }
    order_by_bytes(one, other)
}
