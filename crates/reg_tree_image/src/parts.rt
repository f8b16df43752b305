//! A part of the image of a tree, copied to a room.
//!
//! Suhanov, Windows registry file format specification, section "Format of primary files".

ghost use Rattle.std.specs.Prelude.{◌≡◌, ◌+◌, ◌++◌, ◌≤◌, length, take, drop};
ghost use Rattle.reg_tree_image.specs.Images.{image_of};
ghost use Rattle.reg_tree_image.specs.Rooms.{filled};

use crate::writing::base_block;
use reg_arena::Arena;
use reg_tree::Tree;

/// Copies bytes over the front of a room, as many as it has place for. The rest of it stays as it was.
pub fn fill(room: &mut [u8], bytes: &[u8])
    ensures { room.new ≡ filled bytes.now room.old }
{
    let count = bytes.len().min(room.len());
    room[..count].copy_from_slice(&bytes[..count]);
}

/// The same behind the first bytes of a room, with the bytes from a place on.
fn fill_behind(room: &mut [u8], done: usize, bytes: &[u8], from: usize)
    requires done { done ≤ length room.old }
    requires from { from ≤ length bytes.now }
    ensures { room.new ≡ take done room.old ++ filled (drop from bytes.now) (drop done room.old) }
{
    fill(&mut room[done..], &bytes[from..]);
}

/// Copies the bins over the front of a room, page by page, from an offset on that is none behind their end.
fn fill_bins(room: &mut [u8], arena: &Arena, from: usize)
    requires { from ≤ length arena.now.bytes }
    ensures { room.new ≡ filled (drop from arena.now.bytes) room.old }
{
    let size = arena.bins_size() as usize;
    let mut done = 0;
    while done < room.len() && from + done < size {
        let at = from + done;
        let page = arena.bytes((at / 4096 * 4096) as u32, 4096);
        fill_behind(room, done, page, at % 4096);
        done += 4096 - at % 4096;
    }
}

/// Copies all bins behind the first bytes of a room.
fn fill_bins_behind(room: &mut [u8], done: usize, arena: &Arena)
    requires { done ≤ length room.old }
    ensures { room.new ≡ take done room.old ++ filled arena.now.bytes (drop done room.old) }
{
    fill_bins(&mut room[done..], arena, 0);
}

/// Copies a base block and the bins behind it over the front of a room, from an offset on that is none behind their end.
fn fill_parts(room: &mut [u8], block: &[u8], arena: &Arena, offset: usize)
    requires block { length block.now ≡ 4096 }
    requires offset { offset ≤ 4096 + length arena.now.bytes }
    ensures { room.new ≡ filled (drop offset (block.now ++ arena.now.bytes)) room.old }
{
    if offset >= 4096 {
        fill_bins(room, arena, offset - 4096);
        return;
    }
    fill_behind(room, 0, block, offset);
    if room.len() > 4096 - offset {
        fill_bins_behind(room, 4096 - offset, arena);
    }
}

/// Copies the bytes of a tree's image, with a moment (100 ns units since 1601) and a sequence number, from an offset on over the front of a
/// room: those of the whole image, as `make_image` makes it, and of them as many as the room has place for. The rest of the room stays as
/// it was. Takes no memory.
pub fn image_part(tree: &Tree, moment: u64, sequence: u32, offset: u64, room: &mut [u8])
    ensures { room.new ≡ filled (drop offset (image_of tree.now.bins.bytes tree.now.root moment sequence)) room.old }
{
    let arena = tree.arena();
    let size = arena.bins_size();
    if offset > 4096 + size as u64 {
        return;
    }
    let block = base_block(size, tree.root().offset, moment, sequence);
    fill_parts(room, &block, arena, offset as usize);
}
