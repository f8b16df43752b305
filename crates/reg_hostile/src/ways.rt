//! Images of ours, loaded by either way: their bins taken as they stand, or built anew.
//!
//! A wrong hash, count or parent is no part of a tree, so its dump doesn't tell it. What comes after does: keys are looked for by their
//! hashes, and cells are given back by their counts.
use crate::hives::{Subject, dumped, run_on, scripted};
use crate::seeds::every_record;
use crate::sweeps::turn;
use anyhow::Result;
use reg_tree_image::{LoadFault, NumberedTree, load_anew, load_numbered, make_image};
use std::alloc::Global;

/// What is done to a loaded hive: it goes to the keys of the images that are loaded here, and removes them one by one.
const AFTER: &str = "\
root 983103
create 0 =Plain\\New 983103 x07
create 0 =Wide\\Below\\New 983103
create 0 =A\\c\\D\\f 983103
setsec 0 x0708
open 0 =Valued 983103
open 0 =b 983103
set 5 =Short 3 x00
set 5 =new 3 x000102030405060708
delvalue 5 =Large
set 6 =V 4 x00000000
delvalue 6 =
info 0
enumkey 0 0 255
enumkey 0 1 255
enumkey 0 2 255
delkey 0 =Plain\\New
delkey 0 =Wide\\Below\\New
deltree 0 =Wide
delkey 0 =A\\c\\D\\f
delkey 0 =A\\c\\D\\e
deltree 0 =a
deltree 0 =Valued
delkey 0 =Plain
delkey 0 =b
info 0
";

/// What is told of a hive that was loaded: the script's replies, and its dump then. Of a fault its number.
fn told_after<H: Subject>(
    alloc: Global,
    loaded: Result<NumberedTree, LoadFault>,
) -> Result<Vec<u8>> {
    let numbered = match loaded {
        Ok(numbered) => numbered,
        Err(fault) => return Ok(format!(in alloc; "load {}", fault.number())?.into_bytes()),
    };
    let mut hive = H::of_tree(alloc, numbered.tree)?;
    let mut told = run_on(alloc, &mut hive, AFTER.as_bytes())?;
    let text = dumped(alloc, &hive)?;
    told.extend_from_slice(&text)?;
    Ok(told)
}

/// Whether the same is told of an image by either way.
fn is_same_after<H: Subject>(alloc: Global, image: &[u8]) -> Result<bool> {
    let mut input = image;
    let taken = told_after::<H>(alloc, load_numbered(alloc, &mut input))?;
    let mut again = image;
    let anew = told_after::<H>(alloc, load_anew(alloc, &mut again))?;
    Ok(taken.as_slice() == anew.as_slice())
}

/// How many of the bits of an image from one offset to another, each turned over by itself, make it tell the same by either way.
pub fn same_bits<H: Subject>(
    alloc: Global,
    image: &mut [u8],
    from: usize,
    to: usize,
) -> Result<usize> {
    let mut same: usize = 0;
    for bit in from.saturating_mul(8)..to.saturating_mul(8) {
        turn(image, bit);
        if is_same_after::<H>(alloc, image)? {
            same = same.saturating_add(1);
        }
        turn(image, bit);
    }
    Ok(same)
}

/// The image of ours of a hive that has every kind of record.
pub fn own_records(alloc: Global) -> Result<Vec<u8>> {
    let image = every_record(alloc)?;
    let mut input = image.as_slice();
    let numbered = load_anew(alloc, &mut input)?;
    Ok(make_image(alloc, &numbered.tree, 0, 0)?)
}

/// A script that sets a value of so many bytes and deletes it.
fn freeing_script(alloc: Global, bytes: usize) -> Result<String> {
    let mut script = String::from_str(alloc, "root 983103\nset 0 =v 3 x")?;
    for _byte in 0..bytes {
        script.push_str("5a")?;
    }
    script.push_str("\ndelvalue 0 =v\n")?;
    Ok(script)
}

/// How many bytes of bins an image has whose bins are mostly free, as its bins are taken and as they are built anew.
pub fn sizes_by_ways<H: Subject>(alloc: Global) -> Result<(u32, u32)> {
    let script = freeing_script(alloc, 60_000)?;
    let image = scripted::<H>(alloc, script.as_bytes())?;
    let mut input = image.as_slice();
    let taken = load_numbered(alloc, &mut input)?;
    let mut again = image.as_slice();
    let anew = load_anew(alloc, &mut again)?;
    Ok((
        taken.tree.arena().bins_size(),
        anew.tree.arena().bins_size(),
    ))
}
