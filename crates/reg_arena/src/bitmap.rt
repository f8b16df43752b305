//! A bitmap in words of 64 bits.
ghost use Rattle.std.specs.Prelude.{◌≡◌, ℕ, ◌/◌, ◌<◌, ◌≤◌, ◌==◌, length, if◌then◌else◌, MatchOption};
ghost use Rattle.reg_arena.specs.Internal.SizeTables.{bit_in, IsLeast};

pub fn set_bit(words: &mut Vec<u64>, i: usize)
    requires { i / 64 < length words.old.items }
    ensures bits { (j : ℕ) → bit_in words.new.items j ≡ (if j == i then 1 else bit_in words.old.items j) }
    ensures long { length words.new.items ≡ length words.old.items }
{
    let word = words[i / 64];
    words[i / 64] = word | 1 << (i % 64);
}

pub fn clear_bit(words: &mut Vec<u64>, i: usize)
    requires { i / 64 < length words.old.items }
    ensures bits { (j : ℕ) → bit_in words.new.items j ≡ (if j == i then 0 else bit_in words.old.items j) }
    ensures long { length words.new.items ≡ length words.old.items }
{
    let word = words[i / 64];
    words[i / 64] = word & !(1 << (i % 64));
}

// The first bit that is set, from one on.
pub fn least_bit(words: &Vec<u64>, from: usize) -> Option<usize>
    requires from { from < 2048 }
    requires small { length words.now.items ≤ 32 }
    ensures { MatchOption result ((j : ℕ) → from ≤ j → bit_in words.now.items j ≡ 0) (λ i. IsLeast words.now.items from i) }
{
    let word = from / 64;
    if word >= words.len() {
        return None;
    }
    let rest = words[word] & (u64::MAX << (from % 64));
    if rest != 0 {
        return Some(64 * word + rest.trailing_zeros() as usize);
    }
    for i in word + 1..words.len() {
        let bits = words[i];
        if bits != 0 {
            return Some(64 * i + bits.trailing_zeros() as usize);
        }
    }
    None
}
