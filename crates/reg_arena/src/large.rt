//! A walk over the last list, whose cells have 16,384 bytes or more.
ghost use Rattle.std.specs.Prelude.{◌≡◌, ◌+◌, ◌≤◌, ◌<◌, List, ◌∷◌, ◌++◌, length, MatchOption};
ghost use Rattle.std.specs.List.{AllByRecursion};
ghost use Rattle.reg_heap.specs.ByteWords.{word};
ghost use Rattle.reg_arena.specs.Free.{chain, IsFit};

use reg_bins::BinRow;

// The first free cell of at least `total` bytes among the first `count` that the links from `head` on lead through.
pub fn find_large(bins: &BinRow, head: u32, count: usize, total: u32) -> Option<u32>
    requires { AllByRecursion (λ offset. offset + 8 ≤ length bins.now.items) (chain count bins.now.items head) }
    ensures { MatchOption result (AllByRecursion (λ offset. word bins.now.items offset < total) (chain count bins.now.items head))
        (λ cell. IsFit bins.now.items total (chain count bins.now.items head) cell) }
{
    let mut cell = head;
    for _i in 0..count {
        if bins.word_at(cell as usize) >= total {
            return Some(cell);
        }
        cell = bins.word_at(cell as usize + 4);
    }
    None
}
