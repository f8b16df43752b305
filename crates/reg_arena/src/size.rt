ghost use Rattle.std.specs.Prelude.{◌≡◌, ◌≤◌, ◌<◌, ◌+◌, ◌%◌};
ghost use Rattle.reg_arena.specs.NewCells.{cell_size as cell_size_of};

/// The size of the cell that holds so many bytes: the four of its size field more, rounded up to a multiple of 8.
///
/// Suhanov, Windows registry file format specification, section "Cell".
pub fn cell_size(content: u32) -> u32
    requires { content ≤ 4294967280 }
    ensures size { result ≡ cell_size_of content }
    ensures multiple { result % 8 ≡ 0 }
    ensures holds { content + 4 ≤ result }
    ensures least { result < content + 12 }
{
    (content + 11) / 8 * 8
}
