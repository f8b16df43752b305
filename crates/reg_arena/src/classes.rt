//! Which list has the free cells of a size.
ghost use Rattle.std.specs.Prelude.{◌≡◌, ◌<◌, ◌%◌};
ghost use Rattle.reg_arena.specs.Classes.{class_of};

/// The number of the list that has the free cells of `size` bytes, a multiple of 8 and not 0.
///
/// The lists 0 to 15 have one size each: 8, 16, 24, .. 128. The lists 16 to 22 have the sizes up to 248, 504, 1016, 2040, 4088,
/// 8184 and 16,376. The list 23 has all sizes of 16,384 and above.
#[tactic(auto, unfolding(crate::specs::Classes::class_of))]
pub fn list_of(size: u32) -> usize
    requires some { 0 < size }
    requires eights { size % 8 ≡ 0 }
    ensures { result ≡ class_of size }
{
    if size < 136 {
        return size as usize / 8 - 1;
    }
    if size < 256 {
        return 16;
    }
    if size < 512 {
        return 17;
    }
    if size < 1024 {
        return 18;
    }
    if size < 2048 {
        return 19;
    }
    if size < 4096 {
        return 20;
    }
    if size < 8192 {
        return 21;
    }
    if size < 16384 {
        return 22;
    }
    23
}
