//! Images of many bytes: keys whose values take more than one carve, which load, and keys that have, in the cells of new bins, more bytes
//! than bins may have, with what is wrong with the last of them. The wanted sizes and faults come from the format's tables.
use crate::support::assert_report;
use reg_fixtures::{drafted, put_changes, sizes_but};
use reg_tree::Tree;
use reg_tree_image::load_tree;
use std::alloc::{AllocError, Global};
use std::test::Fail;

/// An image: so many keys below the root, of so many values each, of so many bytes each (a multiple of 16), and another key. Its rows are
/// changes that are made one after another, each with what the image loads to then.
#[derive(Drop)]
struct Image {
    keys: u32,
    values: u32,
    size: u32,
    rows: &'static [(&'static str, &'static str)],
}

const IMAGES: [Image; 4] = [
    // A record of 20 bytes and 6 of a name has a cell of 32 bytes, data of 1,104 bytes one of 1,112; a list of 16,384 values 65,544; each
    // key node 88, their security 48, the list of two subkeys 24: 16,384 * 1,144 + 65,544 + 3 * 88 + 48 + 24. Values are put in carves of
    // up to 16,777,216 bytes, side by side, so that the bins have little more.
    Image {
        keys: 1,
        values: 16_384,
        size: 1_104,
        rows: &[("0 72656766", "18809176 close")],
    },
    // Data of 4,080 bytes has a cell of 4,088, a list of 13,256 values 53,032, the list of four subkeys 40:
    // 3 * (13,256 * 4,120 + 53,032) + 5 * 88 + 48 + 40.
    Image {
        keys: 3,
        values: 13_256,
        size: 4_080,
        rows: &[("0 72656766", "164003784 close")],
    },
    // A key's list of 11 values has a cell of 48 bytes, each value's record one of 32 and its data one of 4,056, its key node one of 88.
    // With a bin's header of 32 bytes these 45,136 are more than eleven pages, so that bins for each such key have 49,152 bytes, and those
    // of 5,462 more than bins may have. Without room made ahead there is a bin for the values alone, of eleven pages. Of the 5,463 subkeys
    // of the root 5,000 have lists of 250, 2,008 bytes each, and 463 one of 3,712; the index root has 96: 5,462 * 45,104 + 2 * 88 + 48 + 20
    // * 2,008 + 3,712 + 96.
    Image {
        keys: 5_462,
        values: 11,
        size: 4_048,
        rows: &[("0 72656766", "246402240 close")],
    },
    // A key's list of 10 values has a cell of 48 bytes, each value's record one of 32 and its data one of 4,072. With a bin's header of 32
    // bytes these 41,120 are more than ten pages, so that new bins have 45,056 bytes for the values of each such key, and what is left has
    // no room for those of another. 5,958 such bins have 268,443,648 bytes, more than bins may have. The record of `k99999` begins at
    // 4,180. Its changes: none, so that the bins alone want room; another signature; its own list of subkeys, which names it; the name of
    // `k04999`; a predefined handle; 16,385 values.
    Image {
        keys: 5_958,
        values: 10,
        size: 4_064,
        rows: &[
            ("4180 6e6b", "13"),
            ("4180 6e6c", "9"),
            ("4180 6e6b, 4200 01000000, 4208 a8000000", "10"),
            ("4200 00000000, 4208 ffffffff, 4257 3034", "11"),
            ("4257 3939, 4182 6000", "12"),
            ("4182 2000, 4216 01400000", "13"),
        ],
    },
];

/// The first lines of a table: a security; the key that the walk meets last; and behind that a list of keys that names this key itself.
const FIRST_LINES: &str = "\
sk 0 0 0 20 x0100048000000000000000000000000000000000
nk 32 0 0 - 0 - @1 - 0 =k99999
li @2";

/// Appends the lines of a key, behind a line of this number: its values, their list, and the key, whose number it tells.
fn push_key(
    table: &mut String,
    image: &Image,
    number: u32,
    behind: u32,
) -> Result<u32, AllocError> {
    let (values, size) = (image.values, image.size);
    let mut line = behind;
    for value in 0..values {
        line = line.saturating_add(2);
        let data = line.saturating_sub(1);
        write!(
            table,
            "\nfill {} x61616161616161616161616161616161\nvk {size} @{data} 3 1 =v{value:05}",
            size / 16
        )?;
    }
    table.push_str("\nrow")?;
    for value in 0..values {
        let record = behind
            .saturating_add(2)
            .saturating_add(value.saturating_mul(2));
        write!(table, " @{record}")?;
    }
    let list = line.saturating_add(1);
    write!(table, "\nnk 32 0 0 - {values} @{list} @1 - 0 =k{number:05}")?;
    Ok(list.saturating_add(1))
}

/// The table of an image: its root is `ROOT`, its keys are `k00000` and on, and last `k99999`.
fn table_of(alloc: Global, image: &Image) -> Result<String, AllocError> {
    let mut table = FIRST_LINES.to_string(alloc)?;
    let mut list = "li".to_string(alloc)?;
    let mut line = 3;
    for number in 0..image.keys {
        line = push_key(&mut table, image, number, line)?;
        write!(list, " @{line}")?;
    }
    let names = line.saturating_add(1);
    let count = image.keys.saturating_add(1);
    write!(
        table,
        "\n{} @2\nnk 44 0 {count} @{names} 0 - @1 - 0 =ROOT",
        list.as_str()
    )?;
    Ok(table)
}

/// The sizes of a tree's allocated cells, added up, and whether its bins have at most 1.05 times as many bytes.
fn sizes_told(alloc: Global, tree: &Tree) -> Result<String, Fail> {
    let mut cells: u64 = 0;
    for size in &sizes_but(alloc, tree.arena(), 0)? {
        cells = cells.saturating_add(u64::from(*size));
    }
    let bins = u64::from(tree.arena().bins_size());
    let are_close = bins * 100 <= cells.saturating_mul(105);
    let how = if are_close { "close" } else { "far" };
    Ok(format!(in alloc; "{cells} {how}")?)
}

/// The sizes of what an image loads to, or the fault's number.
fn loaded(alloc: Global, image: &[u8]) -> Result<String, Fail> {
    let mut input = image;
    match load_tree(alloc, &mut input) {
        Ok(tree) => sizes_told(alloc, &tree),
        Err(fault) => Ok(format!(in alloc; "{}", fault.number())?),
    }
}

/// Makes the changes of each row, and fails where the image doesn't load to what is wanted.
fn check(alloc: Global, image: &Image) -> Result<(), Fail> {
    let table = table_of(alloc, image)?;
    let mut bytes = drafted(alloc, 5, table.as_str())?;
    for (changes, wanted) in image.rows {
        put_changes(alloc, &mut bytes, changes)?;
        assert_report(loaded(alloc, &bytes), wanted)?;
    }
    Ok(())
}

#[test]
fn images_load_or_tell_what_is_wrong_with_the_last_key(rt: HostRuntime) -> Result<(), Fail> {
    for image in &IMAGES {
        check(rt.alloc(), image)?;
    }
    Ok(())
}
